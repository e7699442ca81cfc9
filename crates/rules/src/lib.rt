// The types of the monitor core: setup, numbers, records, state, events and answers.
// What they mean is in specs/, which condenses document 01's core.
#![tactic(auto)]

ghost use Rattle.std.specs.Prelude.{◌≡◌, ◌<◌};
ghost use Rattle.rules.specs.Sizes.{between, setup_in_range};
ghost use Rattle.rules.specs.Records.{fresh_state, is_empty, is_stopped, is_free, is_running, is_kept_in, domain_where};
ghost use Rattle.rules.specs.Records.{is_public, is_clear_in};
ghost use Rattle.rules.specs.Asked.{Limited, Numbered};
ghost use Rattle.rules.specs.Sealing.{takes_at};
ghost use Rattle.rules.specs.Events.{kind_of, data_length};
ghost use Rattle.rules.specs.Refusals.{IsNumber};

// Numbers, each of its own kind so that none is taken for another, under the sources' names.
// A domain: address space identifier.
#[derive(Clone, Copy, PartialEq, Eq)]
pub struct Asid(pub u8);
// A page of a domain: guest virtual page number.
#[derive(Clone, Copy, PartialEq, Eq)]
pub struct Gvpn(pub u8);
// A frame: guest physical page number.
#[derive(Clone, Copy, PartialEq, Eq)]
pub struct Gppn(pub u8);
// A context: cloaked thread context.
#[derive(Clone, Copy, PartialEq, Eq)]
pub struct Ctc(pub u8);

// How large a run is: the page size P in bytes, then D, V (pages of each domain), T, F and N.
#[derive(Clone, Copy)]
pub struct Setup {
    pub size: usize,
    pub domains: usize,
    pub pages: usize,
    pub contexts: usize,
    pub frames: usize,
    pub signatures: usize,
}

impl Setup {
    // The page size is a multiple of this.
    pub const SIZE_UNIT: usize = 16;

    pub const MIN_SIZE: usize = 16;

    pub const MAX_SIZE: usize = 4096;

    pub const MAX_DOMAINS: usize = 8;

    pub const MAX_PAGES: usize = 32;

    pub const MAX_CONTEXTS: usize = 16;

    pub const MAX_FRAMES: usize = 64;

    pub const MAX_SIGNATURES: usize = 65535;

    // Whether each size is within its limits.
    #[tactic(auto, unfolding(crate::specs::Sizes::setup_in_range, crate::specs::Bytes::all_of))]
    pub fn in_range(self) -> bool
        ensures { result ≡ setup_in_range self }
    {
        let size = within(Setup::MIN_SIZE, Setup::MAX_SIZE, self.size);
        let unit = self.size % Setup::SIZE_UNIT == 0;
        size && unit
            && within(1, Setup::MAX_DOMAINS, self.domains)
            && within(1, Setup::MAX_PAGES, self.pages)
            && within(1, Setup::MAX_CONTEXTS, self.contexts)
            && within(1, Setup::MAX_FRAMES, self.frames)
            && self.signatures <= Setup::MAX_SIGNATURES
    }

    // A page's number among all, by which the table has its record and the store its slot.
    pub fn page_number(self, d: Asid, v: Gvpn) -> usize
        requires { (Limited self) × (d.0 < self.domains) × (v.0 < self.pages) }
        ensures { Numbered self d v result }
    {
        (d.0 as usize) * self.pages + (v.0 as usize)
    }
}

#[tactic(auto, unfolding(crate::specs::Sizes::between, crate::specs::Bytes::all_of))]
fn within(low: usize, high: usize, n: usize) -> bool
    ensures { result ≡ between low high n }
{
    low <= n && n <= high
}

#[derive(Clone, Copy, PartialEq, Eq)]
pub enum Life {
    Empty,
    Live,
    Stopped,
}

impl Life {
    pub fn is_empty(self) -> bool
        ensures { result ≡ is_empty self }
    {
        self == Life::Empty
    }

    pub fn is_stopped(self) -> bool
        ensures { result ≡ is_stopped self }
    {
        self == Life::Stopped
    }
}

// Why a context was stopped; what of its registers the kernel is shown goes by it.
#[derive(Clone, Copy, PartialEq, Eq)]
pub enum TrapKind {
    Interrupt,
    Call,
}

// The registers of a Kept context stand in State, beside the tables.
#[derive(Clone, Copy)]
pub enum Activity {
    Free,
    Running(Asid),
    Kept(Asid, TrapKind),
}

impl Activity {
    pub fn is_free(self) -> bool
        ensures { result ≡ is_free self }
    {
        matches!(self, Activity::Free)
    }

    pub fn is_running(self) -> bool
        ensures { result ≡ is_running self }
    {
        matches!(self, Activity::Running(_))
    }

    // Kept, and in domain d.
    pub fn is_kept_in(self, d: Asid) -> bool
        ensures { result ≡ is_kept_in d self }
    {
        matches!(self, Activity::Kept(e, _) if e == d)
    }

    // The domain that the context is in; 0 where it is in none.
    pub fn domain(self) -> Asid
        ensures { result ≡ domain_where self }
    {
        match self {
            Activity::Free => Asid(0),
            Activity::Running(d) => d,
            Activity::Kept(d, _) => d,
        }
    }
}

// Of a Clear page: whether it was written since it was last sealed, or else the signature that it was sealed with. No Option of a
// signature: dirty and clean are document 01's words, and None would not say dirty.
#[derive(Clone, Copy)]
pub enum Wear {
    Dirty,
    Clean(u16),
}

#[derive(Clone, Copy)]
pub enum Place {
    Public,
    Clear(Gppn, Wear),
    Sealed(u16),
}

impl Place {
    pub fn is_public(self) -> bool
        ensures { result ≡ is_public self }
    {
        matches!(self, Place::Public)
    }

    // Clear, and in frame f.
    pub fn is_clear_in(self, f: Gppn) -> bool
        ensures { result ≡ is_clear_in f self }
    {
        matches!(self, Place::Clear(g, _) if g == f)
    }

    // The signatures that sealing a page here takes: one for a dirty page.
    #[tactic(auto, unfolding(crate::specs::Sealing::takes_at, crate::specs::Sealing::takes))]
    pub fn takes(self) -> u8
        ensures { result ≡ takes_at self }
    {
        match self {
            Place::Clear(_, Wear::Dirty) => 1,
            Place::Clear(_, Wear::Clean(_)) | Place::Public | Place::Sealed(_) => 0,
        }
    }
}

#[derive(Clone, Copy)]
pub struct DomainRecord {
    pub life: Life,
}

#[derive(Clone, Copy)]
pub struct ContextRecord {
    pub activity: Activity,
}

#[derive(Clone, Copy)]
pub struct PageRecord {
    // The frame that the page is mapped to, or none.
    pub mapping: Option<Gppn>,
    pub place: Place,
}

#[derive(Clone, Copy)]
pub struct FrameRecord {
    // The one page that is Clear in the frame, or none.
    pub names: Option<(Asid, Gvpn)>,
}

#[derive(Clone, Copy)]
pub struct Registers {
    pub words: [u64; 8],
}

// What the kernel's view of a run follows from, beside the bytes of its frames. A page's entry is d * V + v.
#[derive(Clone, Copy)]
pub struct Tables {
    pub domains: [DomainRecord; Setup::MAX_DOMAINS],
    pub contexts: [ContextRecord; Setup::MAX_CONTEXTS],
    pub pages: [PageRecord; Setup::MAX_DOMAINS * Setup::MAX_PAGES],
    pub frames: [FrameRecord; Setup::MAX_FRAMES],
    pub used: u16,
}

// All that is kept from event to event, but for the lent bytes.
#[derive(Clone, Copy)]
pub struct State {
    pub tables: Tables,
    pub saved: [Registers; Setup::MAX_CONTEXTS],
}

impl State {
    // As freshly started.
    pub fn fresh() -> State
        ensures { result ≡ fresh_state }
    {
        let domain = DomainRecord { life: Life::Empty };
        let context = ContextRecord {
            activity: Activity::Free,
        };
        let page = PageRecord {
            mapping: None,
            place: Place::Public,
        };
        let frame = FrameRecord { names: None };
        let words = [0u64; 8];
        let registers = Registers { words };
        let domains = [domain; Setup::MAX_DOMAINS];
        let contexts = [context; Setup::MAX_CONTEXTS];
        let pages = [page; Setup::MAX_DOMAINS * Setup::MAX_PAGES];
        let frames = [frame; Setup::MAX_FRAMES];
        let saved = [registers; Setup::MAX_CONTEXTS];
        let tables = Tables {
            domains,
            contexts,
            pages,
            frames,
            used: 0,
        };
        State { tables, saved }
    }
}

// Bytes of a page: len of them from off on.
#[derive(Clone, Copy)]
pub struct Span {
    pub off: usize,
    pub len: usize,
}

// The kernel's events, then the application's, in the order of their kinds.
#[derive(Clone, Copy)]
pub enum Event {
    Begin(Asid, Ctc),
    End(Asid),
    Map(Asid, Gvpn, Gppn),
    Unmap(Asid, Gvpn),
    KernelRead(Gppn, Span),
    KernelWrite(Gppn, Span),
    Resume(Asid, Ctc),
    Spawn(Ctc, Ctc),
    Leave(Ctc),
    Cloak(Ctc, Gvpn),
    Uncloak(Ctc, Gvpn),
    Read(Ctc, Gvpn, Span),
    Write(Ctc, Gvpn, Span),
    Trap(Ctc, TrapKind, u8),
}

impl Event {
    // How many kinds there are.
    pub const KINDS: u8 = 14;

    // The event's kind, 0 to 13: the number that a trace has for it (`kind_of`).
    pub fn kind(self) -> u8
        ensures { result ≡ kind_of self }
    {
        match self {
            Event::Begin(_, _) => 0,
            Event::End(_) => 1,
            Event::Map(_, _, _) => 2,
            Event::Unmap(_, _) => 3,
            Event::KernelRead(_, _) => 4,
            Event::KernelWrite(_, _) => 5,
            Event::Resume(_, _) => 6,
            Event::Spawn(_, _) => 7,
            Event::Leave(_) => 8,
            Event::Cloak(_, _) => 9,
            Event::Uncloak(_, _) => 10,
            Event::Read(_, _, _) => 11,
            Event::Write(_, _, _) => 12,
            Event::Trap(_, _, _) => 13,
        }
    }

    // How many bytes of data the event comes with.
    pub fn data_length(self) -> usize
        ensures { result ≡ data_length self }
    {
        match self {
            Event::KernelWrite(_, span) | Event::Write(_, _, span) => span.len,
            Event::Resume(_, _) => 8,
            Event::Trap(_, _, _) => 64,
            _ => 0,
        }
    }
}

// Why the core, the reader or the writer refuses, under document 01's numbers.
#[derive(Clone, Copy, PartialEq, Eq)]
pub enum Refusal {
    NoEvent = 1,
    OutOfRange = 2,
    BadLength = 3,
    WrongCondition = 4,
    NotMapped = 5,
    NoSignature = 6,
    Stopped = 7,
    NotUnveiled = 8,
    CutShort = 9,
    NotAcceptable = 10,
    NoRoom = 11,
}

impl From<Refusal> for u8 {
    ghost from_gives = { IsNumber };

    fn from(refusal: Refusal) -> u8 {
        refusal as u8
    }
}

// What is told of an event, beside the answer's bytes: its number, the seals and unveils it made, and the
// signatures used since the fresh start. A number and no Result, since an answer 8 has counts too, and since the theorems of
// theorem_code (`code_never_10`, `code_answers`), `answer_of` and the listing speak of document 01's number.
#[derive(Clone, Copy)]
pub struct Answer {
    pub number: u8,
    pub seals: u8,
    pub unveils: u8,
    pub used: u16,
}

impl Answer {
    // The number of an event that was done; a refusal's is its `Refusal`'s.
    pub const DONE: u8 = 0;
}
