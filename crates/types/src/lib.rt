// The types that every layer shares. The rules number the cases of each enum: specs/Numbers.antt has those numbers.
#![tactic(auto)]

ghost use Rattle.std.specs.Prelude.{◌≡◌};
ghost use Rattle.types.specs.Roles.{is_route_server, is_upstream};
ghost use Rattle.types.specs.Numbers.{role_number, role_read, ground_number, fault_number, refusal_number, refusal_place, verdict_number};
ghost use Rattle.types.specs.Numbers.{verdict_ground, place_a, place_b, origin_number, first_origin, second_origin, origin_a, origin_b, verdict_of};

// The number of an autonomous system.
#[derive(Clone, Copy, PartialEq, Eq)]
pub struct AsNumber(pub u32);

// The caller's number of a kept route.
#[derive(Clone, Copy, PartialEq, Eq)]
pub struct RouteNumber(pub u32);

// What the neighbour is to the network that judges the route (RFC 9234), under the number that the rules give it.
#[derive(Clone, Copy, PartialEq, Eq)]
pub enum Role {
    Customer = 1,
    Peer = 2,
    Provider = 3,
    RouteServer = 4,
    RouteServerClient = 5,
    MutualTransit = 6,
}

impl TryFrom<u32> for Role {
    type Error = Refusal;

    ghost try_from_gives = { λ n r. r ≡ role_read n };

    fn try_from(n: u32) -> Result<Role, Refusal> {
        match n {
            1 => Ok(Role::Customer),
            2 => Ok(Role::Peer),
            3 => Ok(Role::Provider),
            4 => Ok(Role::RouteServer),
            5 => Ok(Role::RouteServerClient),
            6 => Ok(Role::MutualTransit),
            _ => Err(Refusal::RoleNumber),
        }
    }
}

impl From<Role> for u32 {
    ghost from_gives = { λ role n. n ≡ role_number role };

    fn from(role: Role) -> u32 {
        role as u32
    }
}

impl Role {
    pub const LEAST: u32 = 1;

    pub const GREATEST: u32 = 6;

    // A route server need not put its own number on the path.
    pub fn is_route_server(self) -> bool
        ensures { result ≡ is_route_server (role_number self) }
    {
        matches!(self, Role::RouteServer)
    }

    // Its routes are judged upstream; the others' downstream.
    pub fn is_upstream(self) -> bool
        ensures { result ≡ is_upstream (role_number self) }
    {
        matches!(
            self,
            Role::Customer | Role::Peer | Role::RouteServer | Role::RouteServerClient
        )
    }
}

// The neighbour that a route comes from: what it is to the network, and its number.
#[derive(Clone, Copy, PartialEq, Eq)]
pub struct Neighbour {
    pub role: Role,
    pub number: AsNumber,
}

// Why a route is Invalid before any hop is looked at, under its number.
#[derive(Clone, Copy, PartialEq, Eq)]
pub enum Ground {
    Empty = 1,
    NotNeighbour = 2,
    AsSet = 3,
}

impl From<Ground> for u32 {
    ghost from_gives = { λ ground n. n ≡ ground_number ground };

    fn from(ground: Ground) -> u32 {
        ground as u32
    }
}

// The register that counts for a customer: the public one, or the operator's own overrides.
#[derive(Clone, Copy, PartialEq, Eq)]
pub enum Origin {
    Public = 1,
    Overrides = 2,
}

impl From<Origin> for u32 {
    ghost from_gives = { λ origin n. n ≡ origin_number origin };

    fn from(origin: Origin) -> u32 {
        origin as u32
    }
}

// What the hop check says of two neighbours on a path, by which register; a Provider+ also by which source, the lowest that lists the provider.
#[derive(Clone, Copy, PartialEq, Eq)]
pub enum Hop {
    NoAttestation,
    ProviderPlus(Origin, u32),
    NotProviderPlus(Origin),
}

// The registers by which the hops of an Invalid are Not Provider+: upstream it names one hop, downstream two.
#[derive(Clone, Copy, PartialEq, Eq)]
pub enum Origins {
    One(Origin),
    Two(Origin, Origin),
}

// Numbers and no Option: these are words that C is told.
impl Origins {
    pub fn first(self) -> u32
        ensures { result ≡ first_origin self }
    {
        match self {
            Origins::One(a) => u32::from(a),
            Origins::Two(a, _) => u32::from(a),
        }
    }

    // 0 where no second hop is named.
    pub fn second(self) -> u32
        ensures { result ≡ second_origin self }
    {
        match self {
            Origins::One(_) => 0,
            Origins::Two(_, b) => u32::from(b),
        }
    }
}

// Why a route is Invalid: its ground, or the two places of the hops that are Not Provider+ (upstream the second is 0), with their registers.
#[derive(Clone, Copy, PartialEq, Eq)]
pub enum Cause {
    ByGround(Ground),
    ByHops(u32, u32, Origins),
}

#[derive(Clone, Copy, PartialEq, Eq)]
pub enum Verdict {
    Valid,
    Invalid(Cause),
    Unknown(u32, u32),
}

// The words of a verdict, as C and a ledger have them: 0 stands where there is none.
impl Verdict {
    pub fn number(self) -> u32
        ensures { result ≡ verdict_number self }
    {
        match self {
            Verdict::Valid => 0,
            Verdict::Invalid(_) => 1,
            Verdict::Unknown(_, _) => 2,
        }
    }

    // The number of its ground; 0 where it has none.
    pub fn ground(self) -> u32
        ensures { result ≡ verdict_ground self }
    {
        match self {
            Verdict::Valid => 0,
            Verdict::Invalid(c) => match c {
                Cause::ByGround(g) => u32::from(g),
                Cause::ByHops(_, _, _) => 0,
            },
            Verdict::Unknown(_, _) => 0,
        }
    }

    pub fn place_a(self) -> u32
        ensures { result ≡ place_a self }
    {
        match self {
            Verdict::Valid => 0,
            Verdict::Invalid(c) => match c {
                Cause::ByGround(_) => 0,
                Cause::ByHops(a, _, _) => a,
            },
            Verdict::Unknown(a, _) => a,
        }
    }

    pub fn place_b(self) -> u32
        ensures { result ≡ place_b self }
    {
        match self {
            Verdict::Valid => 0,
            Verdict::Invalid(c) => match c {
                Cause::ByGround(_) => 0,
                Cause::ByHops(_, b, _) => b,
            },
            Verdict::Unknown(_, b) => b,
        }
    }

    // The number of the register of the hop at place a, and at place b; 0 where no hop is named.
    pub fn origin_a(self) -> u32
        ensures { result ≡ origin_a self }
    {
        match self {
            Verdict::Valid => 0,
            Verdict::Invalid(c) => match c {
                Cause::ByGround(_) => 0,
                Cause::ByHops(_, _, o) => o.first(),
            },
            Verdict::Unknown(_, _) => 0,
        }
    }

    pub fn origin_b(self) -> u32
        ensures { result ≡ origin_b self }
    {
        match self {
            Verdict::Valid => 0,
            Verdict::Invalid(c) => match c {
                Cause::ByGround(_) => 0,
                Cause::ByHops(_, _, o) => o.second(),
            },
            Verdict::Unknown(_, _) => 0,
        }
    }
}

// What a judging answers. A downstream verdict without a ground comes with the gap between the ramps, L - K.
#[derive(Clone, Copy, PartialEq, Eq)]
pub enum Answer {
    Plain(Verdict),
    WithGap(Verdict, i32),
}

impl Answer {
    pub fn verdict(self) -> Verdict
        ensures { result ≡ verdict_of self }
    {
        match self {
            Answer::Plain(v) => v,
            Answer::WithGap(v, _) => v,
        }
    }
}

// What is wrong with a segment of an AS_PATH attribute, under the number of its refusal.
#[derive(Clone, Copy, PartialEq, Eq)]
pub enum Fault {
    CutShort = 12,
    UnknownType = 13,
    Confederation = 14,
    NoNumbers = 15,
    ZeroNumber = 16,
}

impl From<Fault> for u32 {
    ghost from_gives = { λ fault n. n ≡ fault_number fault };

    fn from(fault: Fault) -> u32 {
        fault as u32
    }
}

// Why a call is refused. A fault of the attribute comes with its place, the byte where it begins.
#[derive(Clone, Copy, PartialEq, Eq)]
pub enum Refusal {
    TableLength,
    RegisterMalformed,
    RoutesMalformed,
    SourceNumber,
    CustomerZero,
    ProviderList,
    NoRecord,
    RegisterFull,
    RoleNumber,
    NeighbourZero,
    AttributeLength,
    Attribute(Fault, usize),
    PathLength,
    RouteTaken,
    NoRoute,
    RoutesFull,
    OutputLength,
    Edition,
    Contents,
    SnapshotLength,
}

impl Refusal {
    // A method and no From: the place of a fault is lost in it.
    pub fn number(self) -> u32
        ensures { result ≡ refusal_number self }
    {
        match self {
            Refusal::TableLength => 1,
            Refusal::RegisterMalformed => 2,
            Refusal::RoutesMalformed => 3,
            Refusal::SourceNumber => 4,
            Refusal::CustomerZero => 5,
            Refusal::ProviderList => 6,
            Refusal::NoRecord => 7,
            Refusal::RegisterFull => 8,
            Refusal::RoleNumber => 9,
            Refusal::NeighbourZero => 10,
            Refusal::AttributeLength => 11,
            Refusal::Attribute(f, _) => u32::from(f),
            Refusal::PathLength => 17,
            Refusal::RouteTaken => 18,
            Refusal::NoRoute => 19,
            Refusal::RoutesFull => 20,
            Refusal::OutputLength => 21,
            Refusal::Edition => 22,
            Refusal::Contents => 23,
            Refusal::SnapshotLength => 24,
        }
    }

    // The byte where the fault of an attribute begins; no other refusal has a place.
    pub fn place(self) -> Option<usize>
        ensures { result ≡ refusal_place self }
    {
        match self {
            Refusal::Attribute(_, place) => Some(place),
            _ => None,
        }
    }
}

// What File did.
#[derive(Clone, Copy, PartialEq, Eq)]
pub enum Filed {
    New,
    Replaced,
}
