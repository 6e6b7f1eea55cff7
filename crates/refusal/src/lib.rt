//! Why a call refuses and where: one case for each of the eighteen refusals.
#![tactic(auto)]

ghost use Rattle.std.specs.Prelude.{◌≡◌};
ghost use Rattle.refusal.specs.Faults.{number as number_of, place as place_of, place_number};

/// Where a fault was found.
#[derive(Clone, Copy, PartialEq, Eq, Debug)]
pub enum Place {
    /// The call as a whole; its number is 0.
    Call,
    /// A bit of a page, counted from 0.
    Bit(usize),
    /// A net of the tables handed in.
    Net(usize),
    /// A pin of such a net, by its position among the net's pins.
    Pin { net: usize, position: usize },
    /// A row, table or buffer handed in, counted from 1 in the order of the arguments.
    Table(usize),
}

impl Place {
    /// The place as one number: the bit, the net (a pin's net too), the table, or 0 for the call.
    pub fn number(&self) -> usize
        ensures { result ≡ place_number self.now }
    {
        match *self {
            Place::Call => 0,
            Place::Bit(number) | Place::Net(number) | Place::Table(number) => number,
            Place::Pin { net, .. } => net,
        }
    }
}

/// A refusal, with what its place needs. The cases stand in the order of their numbers, 1 to 18.
#[derive(Clone, Copy, PartialEq, Eq, Debug)]
pub enum Fault {
    /// The page ends inside a field.
    PageEnds { bit: usize },
    /// The page's kind is not the kind wanted.
    OtherKind { bit: usize },
    /// There are more than 64 modules.
    TooManyModules { at: Place },
    /// There are more than 1,024 nets.
    TooManyNets { at: Place },
    /// The tables handed in do not fit each other.
    TablesDisagree,
    /// A net has fewer than two pins.
    TooFewPins { at: Place },
    /// A pin names a module that is not there.
    NoSuchModule { at: Place },
    /// A pin repeats an earlier pin of its net.
    RepeatedPin { at: Place },
    /// A pad bit is set, or a byte follows.
    AfterLastNet { bit: usize },
    /// A row, table or buffer handed in is too short.
    TooShort { table: usize },
    /// A home module is not there.
    NoSuchHomeModule,
    /// The two home modules are already in one group.
    AlreadyTogether,
    /// The net is not there.
    NoSuchNet,
    /// The net is already muted.
    AlreadyMuted,
    /// The plan holds 64 changes.
    PlanFull,
    /// There is nothing to take back.
    NothingToTakeBack,
    /// Fewer than two groups are left.
    TooFewGroups,
    /// The script line is not understood.
    LineNotUnderstood,
}

impl Fault {
    // By hand: cases that carry values have no number of their own to cast.
    /// The refusal's number, 1 to 18.
    pub fn number(&self) -> u8
        ensures { result ≡ number_of self.now }
    {
        match self {
            Fault::PageEnds { .. } => 1,
            Fault::OtherKind { .. } => 2,
            Fault::TooManyModules { .. } => 3,
            Fault::TooManyNets { .. } => 4,
            Fault::TablesDisagree => 5,
            Fault::TooFewPins { .. } => 6,
            Fault::NoSuchModule { .. } => 7,
            Fault::RepeatedPin { .. } => 8,
            Fault::AfterLastNet { .. } => 9,
            Fault::TooShort { .. } => 10,
            Fault::NoSuchHomeModule => 11,
            Fault::AlreadyTogether => 12,
            Fault::NoSuchNet => 13,
            Fault::AlreadyMuted => 14,
            Fault::PlanFull => 15,
            Fault::NothingToTakeBack => 16,
            Fault::TooFewGroups => 17,
            Fault::LineNotUnderstood => 18,
        }
    }

    /// Where the fault was found.
    pub fn place(&self) -> Place
        ensures { result ≡ place_of self.now }
    {
        match *self {
            Fault::PageEnds { bit } | Fault::OtherKind { bit } | Fault::AfterLastNet { bit } =>
                Place::Bit(bit),
            Fault::TooManyModules { at }
            | Fault::TooManyNets { at }
            | Fault::TooFewPins { at }
            | Fault::NoSuchModule { at }
            | Fault::RepeatedPin { at } => at,
            Fault::TooShort { table } => Place::Table(table),
            _ => Place::Call,
        }
    }
}
