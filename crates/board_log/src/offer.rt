use estate::PartName;

/// An attempt that is offered to a worker.
#[derive(Clone, Copy, Debug)]
pub struct Offer {
    pub worker: u32,
    pub name: PartName,
}
