//! The port through which a driver makes its calls.
ghost use Rattle.std.specs.Prelude.{◌≡◌, ◌++◌, [], List, Some, IfErr, IfOk};
ghost use Rattle.hp_units.specs.declared.replies.CallFault.{CallFault};
ghost use Rattle.hp_units.specs.declared.replies.Receipt.{Receipt};
ghost use Rattle.hp_ops.specs.Ports.{IsReplied, PortValue, with_receipts};

use hp_units::{CallFault, Event, Reply};
use std::alloc::Global;

/// Makes one processor's calls, on a machine of its own or on a shared one.
pub trait Port {
    /// The receipts so far, the fault of the last call, and the number of processors.
    ghost shows: { Self → PortValue };

    /// Calls with these receipts turn the first port into the second.
    ghost makes: { Self → List Receipt → Self → Type 0 };

    /// A call that fails with this fault turns the first port into the second.
    ghost leaves: { Self → CallFault → Self → Type 0 };

    /// Returns the number of processors.
    fn cpus(&self) -> u32
        ensures { result ≡ (shows self.now).cpus };

    /// Makes one call. Returns the reply and adds one receipt, of this event; or returns a fault,
    /// which the port then shows, and adds no receipt.
    fn call(&mut self, alloc: Global, event: &Event) -> Result<Reply, CallFault>
        ensures ok { IfOk result (λ reply. IsReplied shows makes self.old event.now reply self.new) }
        ensures err { IfErr result
            (λ fault. shows self.new ≡ with_receipts (shows self.old) [] (Some fault)) }
        ensures leaves { IfErr result (λ fault. leaves self.old fault self.new) };

    /// Without a call, the port stays as it is.
    ghost nothing: { (p : Self) → makes p [] p };

    /// If calls follow calls, together they are calls with the receipts of both. No law covers a
    /// call after a fault, so a caller that is proved for every port makes none.
    ghost joined: { (p q r : Self) (xs ys : List Receipt) → makes p xs q → makes q ys r
        → makes p (xs ++ ys) r };
}
