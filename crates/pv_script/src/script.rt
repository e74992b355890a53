// The kinds of scripts that are read.
ghost use Rattle.std.specs.Prelude.{◌≡◌};
ghost use Rattle.pv_model.specs.LineForms.{most_bytes};
ghost use Rattle.pv_script.specs.ScriptKinds.{script_of};

use pv_base::{MAX_LINE, MAX_LIVE_LINE};

/// A kind of script.
#[derive(Clone, Copy, Debug, PartialEq, Eq)]
pub enum Script {
    /// A schedule.
    Scheduled,
    /// A live script.
    Live,
}

impl Script {
    /// The greatest length of a line, in bytes.
    pub fn most_bytes(self) -> usize
        ensures { result ≡ most_bytes (script_of self) }
    {
        match self {
            Script::Scheduled => MAX_LINE,
            Script::Live => MAX_LIVE_LINE,
        }
    }
}
