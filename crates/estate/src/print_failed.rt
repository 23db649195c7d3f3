/// The printer had a fault, which it counted.
#[derive(Clone, Copy, Debug, PartialEq, Eq)]
pub struct PrintFailed;
