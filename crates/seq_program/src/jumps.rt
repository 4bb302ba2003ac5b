//! Where instructions jump to.

ghost use Rattle.std.specs.Prelude.{◌≡◌};
ghost use Rattle.seq_program.specs.Valid.{jump_in};

use crate::instr::Instr;

impl Instr {
    /// The place to which it may jump. A message leads there where it isn't done.
    pub fn jump(&self) -> Option<usize>
        ensures { result ≡ jump_in self.now }
    {
        match self {
            Instr::IfAlert { jump }
            | Instr::If { jump, .. }
            | Instr::Above { jump, .. }
            | Instr::Again { jump, .. }
            | Instr::Goto { jump } => Some(*jump),
            _ => self.otherwise(),
        }
    }
}
