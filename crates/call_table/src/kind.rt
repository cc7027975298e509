// The kinds of calls.
ghost use Rattle.std.specs.Prelude.{◌≡◌};
ghost use Rattle.call_table.specs.Table.{kind_named, kind_numbered, row};

use crate::signature::Signature;

/// The kind of a call. `Begin` is what a thread waits for before it runs: a guest can't import it.
#[derive(Clone, Copy, Drop)]
pub enum Kind {
    Begin,
    Exit,
    Note,
    Print,
    Now,
    SleepUntil,
    Random,
    Me,
    Send,
    Recv,
    TryRecv,
    Spawn,
    Yield,
    Join,
    Lock,
    Unlock,
    OnSignal,
    /// The call that asks for the thread's number.
    Thread,
}

// The kinds in the order of their numbers.
const KINDS: [Kind; 18] = [
    Kind::Begin,
    Kind::Exit,
    Kind::Note,
    Kind::Print,
    Kind::Now,
    Kind::SleepUntil,
    Kind::Random,
    Kind::Me,
    Kind::Send,
    Kind::Recv,
    Kind::TryRecv,
    Kind::Spawn,
    Kind::Yield,
    Kind::Join,
    Kind::Lock,
    Kind::Unlock,
    Kind::OnSignal,
    Kind::Thread,
];

impl Kind {
    /// The number by which logs name the kind.
    pub fn number(self) -> u8
        ensures { result ≡ (row self).number }
    {
        self as u8
    }

    /// The kind with this number.
    #[tactic(auto, unfolding(crate::specs::Table::kind_numbered))]
    pub fn from_number(number: u8) -> Option<Kind>
        ensures { result ≡ kind_numbered number }
    {
        KINDS.get(number as usize).copied()
    }

    /// The kind of the calls with this name.
    #[tactic(auto, unfolding(crate::specs::Table::kind_named))]
    pub fn from_name(name: &[u8]) -> Option<Kind>
        ensures { result ≡ kind_named name.now }
    {
        KINDS
            .iter()
            .copied()
            .find(|kind| kind.name().as_bytes() == name)
    }

    /// The name by which guests import the calls of the kind.
    pub fn name(self) -> &'static str
        ensures { result.now ≡ (row self).name }
    {
        match self {
            Kind::Begin => "begin",
            Kind::Exit => "exit",
            Kind::Note => "note",
            Kind::Print => "print",
            Kind::Now => "now",
            Kind::SleepUntil => "sleep_until",
            Kind::Random => "random",
            Kind::Me => "me",
            Kind::Send => "send",
            Kind::Recv => "recv",
            Kind::TryRecv => "try_recv",
            Kind::Spawn => "spawn",
            Kind::Yield => "yield",
            Kind::Join => "join",
            Kind::Lock => "lock",
            Kind::Unlock => "unlock",
            Kind::OnSignal => "on_signal",
            Kind::Thread => "thread",
        }
    }

    /// What the calls of the kind take and give.
    pub fn signature(self) -> Signature
        ensures { result ≡ (row self).signature }
    {
        let (params, wide_param, result) = match self {
            Kind::Begin | Kind::Yield => (0, false, 0),
            Kind::Exit => (1, false, 0),
            Kind::Note => (1, true, 0),
            Kind::Now => (0, false, 64),
            Kind::SleepUntil => (1, true, 64),
            Kind::Me | Kind::Thread => (0, false, 32),
            Kind::Join | Kind::Lock | Kind::Unlock => (1, false, 32),
            Kind::Print | Kind::Random | Kind::Spawn | Kind::OnSignal => (2, false, 32),
            Kind::Send | Kind::Recv | Kind::TryRecv => (3, false, 32),
        };
        Signature {
            params,
            wide_param,
            result,
        }
    }

    /// How many arguments the calls of the kind have, at most three.
    pub fn argument_count(self) -> u8
        ensures { result ≡ (row self).signature.params }
    {
        self.signature().params
    }

    /// Whether an entry of the kind has bytes that went out.
    pub fn has_outgoing(self) -> bool
        ensures { result ≡ (row self).entry.outgoing }
    {
        matches!(self, Kind::Print | Kind::Send)
    }

    /// Whether an entry of the kind has bytes that came in.
    pub fn has_incoming(self) -> bool
        ensures { result ≡ (row self).entry.incoming }
    {
        matches!(self, Kind::Random | Kind::Recv | Kind::TryRecv)
    }

    /// Whether an entry of the kind may have the tag of a datagram that was taken.
    pub fn has_tag(self) -> bool
        ensures { result ≡ (row self).entry.tag }
    {
        matches!(self, Kind::Recv | Kind::TryRecv)
    }
}
