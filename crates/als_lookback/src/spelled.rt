use crate::fault::Fault;
use crate::taking::TakeRecord;
use als_record::RecordView;
use als_validator::Validator;
use std::alloc::Global;

/// The spellings of records, one after another.
#[derive(Drop)]
pub(crate) struct Spelled {
    pub(crate) bytes: Vec<u8>,
}

impl TakeRecord for Spelled {
    ghost use Rattle.std.specs.Prelude.{◌≡◌, ◌++◌};
    ghost use Rattle.als_record.specs.Spelling.{spelling};

    ghost took = { λ s log r t. t.bytes.items ≡ s.bytes.items ++ spelling r };

    fn take(
        &mut self,
        _alloc: Global,
        _validator: &Validator,
        _logged: &RecordView<'_>,
        bytes: &[u8],
    ) -> Result<(), Fault> {
        self.bytes.extend_from_slice(bytes)?;
        Ok(())
    }
}
