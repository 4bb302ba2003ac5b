ghost use Rattle.std.specs.Prelude.{◌≡◌, Some};
ghost use Rattle.bundles.specs.Bundles.{header_text, headers_of, command_text, command_of};

/// What a bundle asks for, by its first line.
#[derive(Clone, Copy, Debug, PartialEq, Eq)]
pub enum Command {
    Frame,
    Run,
    Wave,
    Check,
    Find,
    Verify,
    Play,
    Refute,
    Draft,
}

/// All commands, in the order in which help and notes list them.
pub const COMMANDS: [Command; 9] = [
    Command::Draft,
    Command::Verify,
    Command::Refute,
    Command::Find,
    Command::Check,
    Command::Run,
    Command::Wave,
    Command::Play,
    Command::Frame,
];

/// What a section holds, by the line above it.
#[derive(Clone, Copy, Debug, PartialEq, Eq)]
pub enum Header {
    Message,
    Board,
    Program,
    Answers,
    Table,
    Seed,
    Plan,
}

const FRAME_HEADERS: [Header; 1] = [Header::Message];

const RUN_HEADERS: [Header; 3] = [Header::Board, Header::Program, Header::Answers];

const CHECK_HEADERS: [Header; 3] = [Header::Board, Header::Program, Header::Table];

const SEARCH_HEADERS: [Header; 2] = [Header::Board, Header::Program];

const PLAY_HEADERS: [Header; 3] = [Header::Board, Header::Program, Header::Seed];

const DRAFT_HEADERS: [Header; 2] = [Header::Board, Header::Plan];

impl Header {
    /// The header line.
    pub fn text(self) -> &'static str
        ensures { result.now ≡ header_text self }
    {
        match self {
            Header::Message => "%message",
            Header::Board => "%board",
            Header::Program => "%program",
            Header::Answers => "%answers",
            Header::Table => "%table",
            Header::Seed => "%seed",
            Header::Plan => "%plan",
        }
    }
}

impl Command {
    /// The line of a command.
    pub fn text(self) -> &'static str
        ensures text { result.now ≡ command_text self }
        ensures named { command_of result.now ≡ Some self }
    {
        match self {
            Command::Frame => "%frame",
            Command::Run => "%run",
            Command::Wave => "%wave",
            Command::Check => "%check",
            Command::Find => "%find",
            Command::Verify => "%verify",
            Command::Play => "%play",
            Command::Refute => "%refute",
            Command::Draft => "%draft",
        }
    }

    /// The headers of the sections that a command wants, in order.
    pub fn headers(self) -> &'static [Header]
        ensures { result.now ≡ headers_of self }
    {
        match self {
            Command::Frame => &FRAME_HEADERS,
            Command::Run => &RUN_HEADERS,
            Command::Wave => &RUN_HEADERS,
            Command::Check => &CHECK_HEADERS,
            Command::Find => &SEARCH_HEADERS,
            Command::Verify => &SEARCH_HEADERS,
            Command::Play => &PLAY_HEADERS,
            Command::Refute => &SEARCH_HEADERS,
            Command::Draft => &DRAFT_HEADERS,
        }
    }

    /// The command of a first line.
    pub fn of_line(line: &str) -> Option<Command>
        ensures { result ≡ command_of line.now }
    {
        match line {
            "%frame" => Some(Command::Frame),
            "%run" => Some(Command::Run),
            "%wave" => Some(Command::Wave),
            "%check" => Some(Command::Check),
            "%find" => Some(Command::Find),
            "%verify" => Some(Command::Verify),
            "%play" => Some(Command::Play),
            "%refute" => Some(Command::Refute),
            "%draft" => Some(Command::Draft),
            _ => None,
        }
    }
}
