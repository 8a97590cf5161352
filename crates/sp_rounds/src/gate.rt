//! Gates, which are called around every offer of a round.

/// A gate is called around every offer of a round, by the worker that makes it, on that worker's thread.
pub trait Gate {
    fn before_offer(&self, worker: u32);

    fn after_offer(&self, worker: u32);
}

/// A gate as one worker passes it.
#[derive(Drop)]
pub(crate) struct WorkerGate<'a, G: Gate> {
    pub gate: &'a G,
    pub worker: u32,
}

/// The gate that lets every worker pass.
#[derive(Clone, Copy, Debug)]
pub struct OpenGate;

impl Gate for OpenGate {
    fn before_offer(&self, _worker: u32) {}

    fn after_offer(&self, _worker: u32) {}
}
