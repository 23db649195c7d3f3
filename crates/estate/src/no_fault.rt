use crate::{GateFault, PartName};

/// The fault type of a gate that lets everyone in, which gives none.
#[derive(Clone, Copy, Debug)]
pub struct NoFault {
    name: PartName,
}

impl GateFault for NoFault {
    ghost code_of = { λ _. 0 };

    ghost name_of = { λ fault. fault.name };

    fn code(&self) -> u32 {
        0
    }

    fn name(&self) -> PartName {
        self.name
    }
}
