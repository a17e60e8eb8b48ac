// A reduced basis by value, built by putting in one vector at a time (document 01, "Points and spaces" and "Forms and where they belong").
// A basis is passed as `self` and handed back; `EMPTY` and `full(n)` are the named starting values. Read next: specs/Short.antt.
#![tactic(auto)]

ghost use Rattle.std.specs.Prelude.{◌≡◌, [], ◌∷◌, ◌++◌, ℕ, ◌+◌, ◌≤◌, ◌<◌, ◌^◌, length};
ghost use Rattle.gf2.specs.Limits.{max_variables};
ghost use Rattle.gf2.specs.Bits.{bit, index_of};
ghost use Rattle.gf2.specs.Span.{Span};
ghost use Rattle.gf2.specs.Basis.{reduce, join, insert, units, lead_mask, places_at, canonical_places, variables_at};
ghost use Rattle.basis.specs.Short.{listed, short};
ghost use Rattle.basis.specs.Reduced.{vectors_of, basis_of, IsBasis, Built, Joins};

use gf2::MAX_VARIABLES;

// At most MAX_VARIABLES numbers, and how many there are; unused entries are 0. C reads it so, which is why the length stands beside the array.
#[repr(C)]
#[derive(Clone, Copy)]
pub struct ShortList {
    pub values: [u16; MAX_VARIABLES],
    pub len: usize,
}

impl ShortList {
    pub const EMPTY: ShortList = ShortList {
        values: [0; MAX_VARIABLES],
        len: 0,
    };

    // The numbers of the list.
    pub fn as_slice(&self) -> &[u16]
        requires { self.now.len ≤ max_variables }
        ensures { result.now ≡ listed self.now }
    {
        &self.values[..self.len]
    }

    // The list with one number more at its end.
    pub fn push(self, v: u16) -> ShortList
        requires self_value { self ≡ short (listed self) }
        requires len_lt_max_variables { self.len < max_variables }
        ensures { result ≡ short (listed self ++ (v ∷ [])) }
    {
        let at = self.len;
        let mut values = self.values;
        values[at] = v;
        ShortList {
            values,
            len: at + 1,
        }
    }
}

// A reduced basis: its vectors rising, and how many there are; unused entries are 0. C reads it so, too.
#[repr(C)]
#[derive(Clone, Copy)]
pub struct Basis {
    pub vectors: [u16; MAX_VARIABLES],
    pub len: usize,
}

impl Basis {
    // The empty basis.
    pub const EMPTY: Basis = Basis {
        vectors: [0; MAX_VARIABLES],
        len: 0,
    };

    // The full basis of n variables spans all their points.
    pub fn full(n: usize) -> Basis
        requires { n ≤ max_variables }
        ensures { Built result (units n) (λ (x : ℕ). x < 2 ^ n) }
    {
        let mut vectors = [0u16; MAX_VARIABLES];
        for i in 0..n {
            vectors[i] = 1 << i;
        }
        Basis { vectors, len: n }
    }

    // The vectors of the basis, rising.
    pub fn as_slice(&self) -> &[u16]
        requires { IsBasis self.now }
        ensures { result.now ≡ vectors_of self.now }
    {
        &self.vectors[..self.len]
    }

    // The point with every lead bit cleared: the least point of its coset.
    pub fn reduce(self, point: u16) -> u16
        requires { IsBasis self }
        ensures { result ≡ reduce (vectors_of self) point }
    {
        let mut x = point;
        for &b in self.as_slice() {
            x = gf2::clear_lead(b, x);
        }
        x
    }

    // The basis with r put in at its place and its lead bit cleared in the others; r is reduced and not 0.
    fn join(self, r: u16) -> Basis
        requires { Joins self r }
        ensures { result ≡ basis_of (join r (vectors_of self)) }
    {
        let mut out = ShortList::EMPTY;
        let mut carried = r;
        for &b in self.as_slice() {
            let cleared = gf2::clear_lead(r, b);
            out = out.push(carried.min(cleared));
            carried = carried.max(cleared);
        }
        let ShortList { values, len } = out.push(carried);
        Basis {
            vectors: values,
            len,
        }
    }

    // The basis with the vector put in. A vector already in the space changes nothing.
    pub fn insert(self, v: u16) -> Basis
        requires basis { IsBasis self }
        requires v_bound { v < 2 ^ max_variables }
        ensures { Built result (insert (vectors_of self) v) (Span (v ∷ vectors_of self)) }
    {
        let r = self.reduce(v);
        if r == 0 {
            return self;
        }
        self.join(r)
    }

    // The number of vectors, which is the dimension of the space.
    pub fn degree(self) -> usize
        requires { IsBasis self }
        ensures { result ≡ length (vectors_of self) }
    {
        self.len
    }

    // The lead bits of the vectors as one number.
    pub fn leads(self) -> u16
        requires { IsBasis self }
        ensures { result ≡ lead_mask (vectors_of self) }
    {
        let mut mask: u16 = 0;
        for &b in self.as_slice() {
            mask ^= 1 << gf2::lead(b);
        }
        mask
    }

    // The canonical variables of n by index, rising.
    pub fn canonical(self, n: usize) -> ShortList
        requires basis { IsBasis self }
        requires n_le_max_variables { n ≤ max_variables }
        ensures { result ≡ short (variables_at n (canonical_places n (vectors_of self))) }
    {
        variables_of(self.leads(), n)
    }
}

// The index of the variable at a place of a point of n variables: x1 is the highest bit.
fn index_of(n: usize, place: usize) -> u16
    requires n_le_max_variables { n ≤ max_variables }
    requires place_lt_n { place < n }
    ensures { result ≡ index_of n place }
{
    (n - place) as u16
}

// The variables of n whose bit is set in the mask, by index, rising.
pub fn variables_of(mask: u16, n: usize) -> ShortList
    requires { n ≤ max_variables }
    ensures { result ≡ short (variables_at n (places_at n (λ (k : ℕ). bit k mask))) }
{
    let mut found = ShortList::EMPTY;
    for k in (0..n).rev() {
        if gf2::bit(k as u32, mask) {
            found = found.push(index_of(n, k));
        }
    }
    found
}
