ghost use Rattle.std.specs.Prelude.{◌≡◌};
ghost use Rattle.board.specs.KeyNames.{key_name};

/// A key of a board file, of whichever table.
#[derive(Clone, Copy, Debug, PartialEq, Eq)]
pub enum Key {
    Target,
    Rail,
    Foreign,
    ForeignBytes,
    ForeignStretch,
    Contentions,
    Name,
    Address,
    Pages,
    Exponent,
    Stretch,
    StartPages,
    StartProtects,
    Alerts,
    Allow,
    Form,
    Command,
    Values,
    Length,
    Page,
    LimitUv,
    Needs,
}

impl Key {
    /// What a file calls it.
    pub fn name(self) -> &'static str
        ensures { result.now ≡ key_name self }
    {
        match self {
            Key::Target => "target",
            Key::Rail => "rail",
            Key::Foreign => "foreign",
            Key::ForeignBytes => "foreign_bytes",
            Key::ForeignStretch => "foreign_stretch",
            Key::Contentions => "contentions",
            Key::Name => "name",
            Key::Address => "address",
            Key::Pages => "pages",
            Key::Exponent => "exponent",
            Key::Stretch => "stretch",
            Key::StartPages => "start_pages",
            Key::StartProtects => "start_protects",
            Key::Alerts => "alerts",
            Key::Allow => "allow",
            Key::Form => "form",
            Key::Command => "command",
            Key::Values => "values",
            Key::Length => "length",
            Key::Page => "page",
            Key::LimitUv => "limit_uv",
            Key::Needs => "needs",
        }
    }
}
