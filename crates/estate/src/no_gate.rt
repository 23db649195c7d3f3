use crate::{Gate, NoFault, PartName};

/// Lets every attempt in.
#[derive(Clone, Copy, Debug)]
pub struct NoGate;

impl Gate for NoGate {
    type Fault = NoFault;

    ghost gives = { λ _ _ _. ⊥ };

    fn enter(&self, _name: PartName) -> Result<(), NoFault> {
        Ok(())
    }
}
