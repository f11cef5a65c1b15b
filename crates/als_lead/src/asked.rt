use als_writer::Work;

/// What a client asks for, and the seat that its answer goes to.
#[derive(Drop)]
pub struct Asked {
    pub seat: u64,
    pub work: Work,
}
