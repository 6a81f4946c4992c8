// Route distinguishers, addresses, and the kinds of addresses by their lengths on the wire.
ghost use Rattle.std.specs.Prelude.{◌≡◌, ◌/◌, ◌≤◌, [], length, take};
ghost use Rattle.nlri.specs.Family.{root_family};
ghost use Rattle.nlri.specs.Answers.{address_struct, kind_octets};

// A route distinguisher: eight octets, kept as they came.
#[repr(C)]
#[derive(Clone, Copy)]
pub struct RouteDistinguisher {
    pub octets: [u8; 8],
}

impl RouteDistinguisher {
    pub const OCTETS: usize = 8;
    // with the source AS behind it
    pub const WITH_SOURCE_AS: usize = 12;
}

// An address: its octets, then zeros, and its size. No octets: the wildcard.
#[repr(C)]
#[derive(Clone, Copy)]
pub struct Address {
    pub octets: [u8; 16],
    pub size: u8,
}

impl Address {
    // The wildcard.
    pub fn wildcard() -> Address
        ensures { result ≡ address_struct [] }
    {
        Address {
            octets: [0; 16],
            size: 0,
        }
    }
}

// The kind of an address: its length in bits, as a length octet has it. The three lengths are named once, here.
#[derive(Clone, Copy)]
pub struct AddressKind {
    pub bits: usize,
}

impl AddressKind {
    pub const WILDCARD: usize = 0;

    pub const IPV4: usize = 32;

    pub const IPV6: usize = 128;
    // the same in octets
    pub const IPV4_OCTETS: usize = AddressKind::IPV4 / 8;

    pub const IPV6_OCTETS: usize = AddressKind::IPV6 / 8;

    // The wildcard's kind.
    pub fn wildcard() -> AddressKind
        ensures { result.bits ≡ 0 }
    {
        AddressKind {
            bits: AddressKind::WILDCARD,
        }
    }

    // The kind of IPv4 addresses.
    pub fn ipv4() -> AddressKind
        ensures { result.bits ≡ 32 }
    {
        AddressKind {
            bits: AddressKind::IPV4,
        }
    }

    // The kind of IPv6 addresses.
    pub fn ipv6() -> AddressKind
        ensures { result.bits ≡ 128 }
    {
        AddressKind {
            bits: AddressKind::IPV6,
        }
    }

    // The address family of a root of the kind, as a FEC has it.
    #[tactic(auto, using(octets::proofs::Tests::tests), unfolding(crate::specs::Family::root_family))]
    pub fn root_family(self) -> u32
        ensures { result ≡ root_family self.bits }
    {
        if self.bits == AddressKind::IPV4 {
            return 1;
        }
        2
    }

    // The octets of an address of the kind.
    pub fn octets(self) -> usize
        ensures { result ≡ self.bits / 8 }
    {
        self.bits / 8
    }

    // The address of the kind at the front of octets: IPv4's four, IPv6's sixteen, or the wildcard.
    pub fn address(self, octets: &[u8]) -> Address
        ensures { result ≡ address_struct (kind_octets self.bits octets.now) }
    {
        if self.bits == AddressKind::IPV4 {
            return four_octets(octets);
        }
        if self.bits == AddressKind::IPV6 {
            return sixteen_octets(octets);
        }
        Address::wildcard()
    }
}

// An IPv4 address: the first four octets.
fn four_octets(octets: &[u8]) -> Address
    ensures { result ≡ address_struct (take 4 octets.now) }
{
    if octets.len() < AddressKind::IPV4_OCTETS {
        return shorter(octets);
    }
    Address {
        octets: [
            octets[0], octets[1], octets[2], octets[3], 0, 0, 0, 0, 0, 0, 0, 0, 0, 0, 0, 0,
        ],
        size: AddressKind::IPV4_OCTETS as u8,
    }
}

// An IPv6 address: the first sixteen octets.
fn sixteen_octets(octets: &[u8]) -> Address
    ensures { result ≡ address_struct (take 16 octets.now) }
{
    if octets.len() < AddressKind::IPV6_OCTETS {
        return shorter(octets);
    }
    Address {
        octets: [
            octets[0], octets[1], octets[2], octets[3], octets[4], octets[5], octets[6], octets[7],
            octets[8], octets[9], octets[10], octets[11], octets[12], octets[13], octets[14],
            octets[15],
        ],
        size: AddressKind::IPV6_OCTETS as u8,
    }
}

// An address of fewer octets than its kind has.
fn shorter(octets: &[u8]) -> Address
    requires { length octets.now ≤ 16 }
    ensures { result ≡ address_struct octets.now }
{
    let mut held = [0u8; 16];
    let size = octets.len();
    held[..size].copy_from_slice(octets);
    Address {
        octets: held,
        size: size as u8,
    }
}
