//! What a session shows without a call: its scenario, its state, and the forms of lines.
ghost use Rattle.std.specs.Prelude.{◌≡◌, ◌++◌, [], OnOk, string_bytes};
ghost use Rattle.hp_text.specs.Scenarios.{scenario_text};
ghost use Rattle.hp_text.specs.State.{state_text};

use crate::session::Session;
use hp_text::{write_scenario, write_state};
use std::alloc::{AllocError, Global};

/// The verbs with their arguments, one per line.
const FORMS: &str = "\
C kalloc ORDER
C kfree FRAME
C map NAME PAGE
C unmap NAME PAGE
C write NAME PAGE INDEX VALUE
C read NAME PAGE INDEX
C drain CPU
C online BLOCK ZONE, where ZONE is normal or movable
C remove BLOCK
C begin ITEM .., where an ITEM is off BLOCK, normal BLOCK or movable BLOCK
C drainfor OP CPU
C migrate OP
C commit OP
C cancel OP
C undo SERIAL
C plan TURNS ITEM ..
C echo TEXT PATH
C cat PATH
C seal
A begin and a kalloc may end in ` as NAME`. Then $NAME is the OP or the FRAME of a later line of C.
";

impl Session {
    /// Writes the layout and all lines so far as JSON that `hotplug serial` reads.
    pub fn write_scenario(&self, out: &mut String) -> Result<(), AllocError>
        ensures { OnOk result (string_bytes out.new ≡ string_bytes out.old
            ++ scenario_text self.now.machine.layout self.now.names self.now.lines []) }
    {
        write_scenario(
            out,
            self.machine.layout(),
            &self.names,
            self.lines.as_slice(),
            &[],
        )
    }

    /// Writes the machine's state, as `hotplug serial` does after its lines.
    pub fn write_state(&self, out: &mut String, alloc: Global) -> Result<(), AllocError>
        ensures { OnOk result (string_bytes out.new ≡ string_bytes out.old
            ++ state_text self.now.machine.layout self.now.names self.now.machine.state) }
    {
        let image = self.machine.image(alloc)?;
        write_state(out, alloc, &image, &self.names)
    }
}

/// Returns the verbs with their arguments, one per line; `C` is a processor.
pub fn help() -> &'static str {
    FORMS
}
