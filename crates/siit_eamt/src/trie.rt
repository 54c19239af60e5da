//! A binary trie over the prefixes of one family.
ghost use Rattle.std.specs.Prelude.{ℕ, not, ◌≡◌, true, false, ◌+◌, ◌-◌, ◌<◌, ◌≤◌, ◌^◌, None, Some, OnOk, IfOk, length};
ghost use Rattle.std.specs.List.{slice_get};
ghost use Rattle.siit_eamt.specs.Trie.{IsGrown, IsSameTrie, IsTrie, reach, with_place, place_at, number_in, child_at, child_of, first_bits, is_odd, longest_place, place_of, place_under};

use siit_addr::{Addr4, Addr6};
use std::alloc::{AllocError, Global};

/// The bits of an address, of which there are 32 or 128.
#[derive(Clone, Copy)]
pub(crate) struct Bits {
    address: u128,
    width: u8,
}

/// A node, which stands for the bits on the way to it: the nodes of one bit more, and the place of the entry whose
/// prefix these bits are. Each is `NONE` where there is none.
#[derive(Clone, Copy)]
pub(crate) struct Node {
    zero: u32,
    one: u32,
    place: u32,
}

/// No node and no place.
const NONE: u32 = u32::MAX;

const _: () = prove!(size_of::<Node>() == 12);

/// A trie, whose first node stands for no bit.
#[derive(Drop)]
pub(crate) struct Trie {
    pub(crate) nodes: Vec<Node>,
}

impl Bits {
    /// The bits of a number of so many bits.
    pub(crate) fn new(address: u128, width: u8) -> Bits
        ensures address { result.address ≡ address }
        ensures width { result.width ≡ width }
    {
        Bits { address, width }
    }

    pub(crate) fn of4(a: Addr4) -> Bits
        ensures address { result.address ≡ a.0 }
        ensures width { result.width ≡ 32 }
        ensures within { result.address < 2 ^ result.width }
    {
        Bits {
            address: u128::from(a.0),
            width: 32,
        }
    }

    pub(crate) fn of6(x: Addr6) -> Bits
        ensures address { result.address ≡ x.0 }
        ensures width { result.width ≡ 128 }
        ensures within { result.address < 2 ^ result.width }
    {
        Bits {
            address: x.0,
            width: 128,
        }
    }

    /// The bit behind so many others.
    fn bit(self, behind: u8) -> bool
        requires within { behind < self.width }
        requires width { self.width ≤ 128 }
        ensures { result ≡ is_odd (first_bits self.width self.address (behind + 1)) }
    {
        (self.address >> u32::from(self.width - behind - 1)) % 2 == 1
    }
}

impl Node {
    /// The node of no prefix.
    fn new() -> Node
        ensures zero { child_of false result ≡ None }
        ensures one { child_of true result ≡ None }
        ensures place { place_of result ≡ None }
    {
        Node {
            zero: NONE,
            one: NONE,
            place: NONE,
        }
    }

    fn child(self, bit: bool) -> Option<u32>
        ensures { result ≡ child_of bit self }
    {
        number_in(if bit { self.one } else { self.zero })
    }

    /// The node with another child, which is a node's number.
    fn with_child(self, bit: bool, child: u32) -> Node
        requires { child < 2 ^ 32 - 1 }
        ensures child { child_of bit result ≡ Some child }
        ensures other { child_of (not bit) result ≡ child_of (not bit) self }
        ensures place { place_of result ≡ place_of self }
    {
        if bit {
            Node { one: child, ..self }
        } else {
            Node {
                zero: child,
                ..self
            }
        }
    }

    fn place(self) -> Option<u32>
        ensures { result ≡ place_of self }
    {
        number_in(self.place)
    }
}

fn number_in(field: u32) -> Option<u32>
    ensures { result ≡ number_in field }
{
    if field == NONE { None } else { Some(field) }
}

impl Trie {
    /// The trie in which no place stands.
    pub(crate) fn new(alloc: Global) -> Result<Trie, AllocError>
        ensures shape { IfOk result (λ trie. IsTrie trie.nodes.items) }
        ensures one { IfOk result (λ trie. length trie.nodes.items ≡ 1) }
        ensures empty { IfOk result (λ trie. (len value : ℕ) → place_under trie.nodes.items len value ≡ None) }
    {
        let mut nodes = Vec::new(alloc);
        nodes.push(Node::new())?;
        Ok(Trie { nodes })
    }

    /// Lets a place stand at a prefix, unless one stands there: it stays, and is answered.
    pub(crate) fn insert(
        &mut self,
        bits: Bits,
        len: u8,
        place: u32,
    ) -> Result<Option<u32>, AllocError>
        requires shape { IsTrie self.old.nodes.items }
        requires few { length self.old.nodes.items + len < 2 ^ 32 - 1 }
        requires within { len ≤ bits.width }
        requires width { bits.width ≤ 128 }
        requires address { bits.address < 2 ^ bits.width }
        requires place { place < 2 ^ 32 - 1 }
        ensures shape { OnOk result (IsTrie self.new.nodes.items) }
        ensures growth { OnOk result (length self.new.nodes.items ≤ length self.old.nodes.items + len) }
        ensures before { IfOk result (λ before. before
            ≡ place_under self.old.nodes.items len (first_bits bits.width bits.address len)) }
        ensures inserted { OnOk result ((l v : ℕ) → place_under self.new.nodes.items l v
            ≡ with_place (place_under self.old.nodes.items) len (first_bits bits.width bits.address len) place l v) }
    {
        let mut at = 0;
        for behind in 0..len {
            at = self.child_or_new(at, bits.bit(behind))?;
        }
        let node = self.nodes[at as usize];
        if let Some(before) = node.place() {
            return Ok(Some(before));
        }
        self.nodes[at as usize] = Node { place, ..node };
        Ok(None)
    }

    /// The child of a node by a bit, which is made where there is none.
    fn child_or_new(&mut self, at: u32, bit: bool) -> Result<u32, AllocError>
        requires shape { IsTrie self.old.nodes.items }
        requires inside { (len : ℕ) × (value : ℕ) × (reach (child_at self.old.nodes.items) len value ≡ Some at) }
        requires few { length self.old.nodes.items < 2 ^ 32 - 1 }
        ensures child { IfOk result (λ child. child_at self.new.nodes.items at bit ≡ Some child) }
        ensures growth { OnOk result (length self.new.nodes.items ≤ length self.old.nodes.items + 1) }
        ensures same { OnOk result (IsSameTrie self.old.nodes.items self.new.nodes.items) }
    {
        match self.nodes[at as usize].child(bit) {
            Some(child) => Ok(child),
            None => self.add_child(at, bit),
        }
    }

    fn add_child(&mut self, at: u32, bit: bool) -> Result<u32, AllocError>
        requires inside { at < length self.old.nodes.items }
        requires none { child_at self.old.nodes.items at bit ≡ None }
        requires few { length self.old.nodes.items < 2 ^ 32 - 1 }
        ensures { IfOk result (λ child. IsGrown self.old.nodes.items self.new.nodes.items at bit child) }
    {
        let child = self.nodes.len() as u32;
        let node = self.nodes[at as usize];
        self.nodes.push(Node::new())?;
        self.nodes[at as usize] = node.with_child(bit, child);
        Ok(child)
    }

    /// The place at the longest prefix of an address at which one stands.
    pub(crate) fn longest(&self, bits: Bits) -> Option<u32>
        requires shape { IsTrie self.now.nodes.items }
        requires width { bits.width ≤ 128 }
        requires address { bits.address < 2 ^ bits.width }
        ensures { result ≡ longest_place (place_under self.now.nodes.items) bits.width bits.address bits.width }
    {
        let mut node = self.read(0);
        let mut longest = node.place();
        for behind in 0..bits.width {
            let Some(child) = node.child(bits.bit(behind)) else {
                return longest;
            };
            node = self.read(child);
            longest = node.place().or(longest);
        }
        longest
    }

    fn read(&self, at: u32) -> Node
        requires { at < length self.now.nodes.items }
        ensures { slice_get self.now.nodes.items at ≡ Some result }
    {
        self.nodes[at as usize]
    }
}
