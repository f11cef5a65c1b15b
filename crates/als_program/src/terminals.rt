/// Which of the program's streams a person sees or types on.
#[derive(Clone, Copy)]
pub struct Terminals {
    pub input: bool,
    pub output: bool,
    pub errors: bool,
}
