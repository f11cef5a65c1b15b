ghost use Rattle.als_lead.specs.declared.answer.Answer.{Answer as AnyAnswer};
ghost use Rattle.als_lead.specs.declared.asked.Asked.{Asked as AnyAsked};

use std::marker::Brand;

/// When the line of an answer may be printed. Each call of the command picks it.
pub(crate) trait Truth {
    ghost may_print: { AnyAsked → AnyAnswer → Type 0 };
}

impl Truth for Brand {
    ghost may_print = { λ asked answer. Unit {0} };
}
