ghost use Rattle.std.specs.Prelude.{◌≡◌};

use std::marker::Model;

/// An output of a target: what it may be set to, and what has to be good before it is turned on.
#[derive(Drop)]
pub struct Rail {
    pub(crate) target: usize,
    pub(crate) page: u8,
    pub(crate) limit_uv: u32,
    pub(crate) needs: Vec<usize>,
}

impl Model for Rail {
    ghost use Rattle.board.specs.Boards.{Rail};

    ghost Value = { Rail };

    ghost use Rattle.board.specs.Views.{rail_view};

    ghost view = { rail_view };
}

impl Rail {
    /// The index of its target.
    pub fn target(&self) -> usize
        ensures { result ≡ self.now.target }
    {
        self.target
    }

    /// Its page of the target.
    pub fn page(&self) -> u8
        ensures { result ≡ self.now.page }
    {
        self.page
    }

    /// The highest voltage that is safe, in microvolts.
    pub fn limit_uv(&self) -> u32
        ensures { result ≡ self.now.limit_uv }
    {
        self.limit_uv
    }

    /// The indices of the rails that it needs, in the order of the file.
    pub fn needs(&self) -> &[usize]
        ensures { result.now ≡ self.now.needs }
    {
        self.needs.as_slice()
    }
}
