// The tables of the records held: where each stands, what each has seen, and whether a seen is closed by them. Of each unit the records
// come behind those that a base vector counts; a table goes by the relative number, the number less that count.
#![tactic(auto)]

ghost use Rattle.std.specs.Prelude.{◌≡◌, ◌+◌, ◌*◌, ◌≤◌, ◌<◌, length, replicate, set};
ghost use Rattle.model.specs.Bytes.{put_at};
ghost use Rattle.log_closure.specs.Tables.{places_size, seens_size, slot_of, position_of, row_at, unit_closed, closed_by, Placed, tables};

use vector::Vector;

// The table of positions: one for each unit and number.
pub const PLACES: usize = 4096;

// The table of what was seen: a row of eight for each position.
pub const SEENS: usize = 4144;

// Where the position of the record of unit u with the relative number c stands.
pub fn slot(u: usize, c: u16) -> usize
    requires { (u < 8) × (1 ≤ c) × (c ≤ 512) }
    ensures { (result ≡ slot_of u c) × (result < 4096) }
{
    512 * u + (usize::from(c) - 1)
}

// The position of the record of unit u with the relative number c.
pub fn position(places: &[u16], u: usize, c: u16) -> usize
    requires { (length places.now ≡ 4096) × (u < 8) × (1 ≤ c) × (c ≤ 512) }
    ensures { result ≡ position_of places.now u c }
{
    usize::from(places[slot(u, c)])
}

// What the record at a position has seen.
fn row_at(seens: &[u16], p: usize) -> Vector
    requires { (length seens.now ≡ 4144) × (p < 518) }
    ensures { result.counts ≡ row_at seens.now p }
{
    let at = 8 * p;
    Vector {
        counts: [
            seens[at],
            seens[at + 1],
            seens[at + 2],
            seens[at + 3],
            seens[at + 4],
            seens[at + 5],
            seens[at + 6],
            seens[at + 7],
        ],
    }
}

// The seen of the record that s counts last of unit u is nowhere above s, its eight counts compared at once.
fn unit_covered(base: Vector, places: &[u16], seens: &[u16], s: Vector, u: usize) -> bool
    requires { (length places.now ≡ 4096) × (length seens.now ≡ 4144) × Placed base.counts s.counts places.now × (u < 8) }
    ensures { result ≡ unit_closed base.counts places.now seens.now s.counts u }
{
    let c = s.counts[u];
    let f = base.counts[u];
    if c <= f {
        return true;
    }
    let p = position(places, u, c - f);
    vector::covers(s, row_at(seens, p))
}

// A quick test before `is_closed`, which it spares where every row is covered.
pub fn all_covered(base: Vector, places: &[u16], seens: &[u16], s: Vector) -> bool
    requires { (length places.now ≡ 4096) × (length seens.now ≡ 4144) × Placed base.counts s.counts places.now }
    ensures { result ≡ closed_by base.counts places.now seens.now s.counts }
{
    for u in 0..8 {
        if !unit_covered(base, places, seens, s, u) {
            return false;
        }
    }
    true
}

// For each unit u with count c above the base vector's, the seen of record u.c is nowhere above s. Document 01 asks for this form: nested loops over units
// and counts, left by a label at the first count that breaks closure.
pub fn is_closed(base: Vector, places: &[u16], seens: &[u16], s: Vector) -> bool
    requires { (length places.now ≡ 4096) × (length seens.now ≡ 4144) × Placed base.counts s.counts places.now }
    ensures { result ≡ closed_by base.counts places.now seens.now s.counts }
{
    let mut closed = true;
    'units: for u in 0..8 {
        let c = s.counts[u];
        let f = base.counts[u];
        if c <= f {
            continue 'units;
        }
        let p = position(places, u, c - f);
        for v in 0..8 {
            if s.counts[v] < seens[8 * p + v] {
                closed = false;
                break 'units;
            }
        }
    }
    closed
}

// The record of unit u with the relative number c is noted: it stands at the position p and has seen s.
pub fn note(u: usize, c: u16, p: usize, s: Vector, places: &mut [u16], seens: &mut [u16])
    requires { (u < 8) × (1 ≤ c) × (c ≤ 512) × (p < 518) × (length places.old ≡ places_size) × (length seens.old ≡ seens_size) }
    ensures { (places.new ≡ set places.old (slot_of u c) p) × (seens.new ≡ put_at seens.old (8 * p) s.counts) }
{
    places[slot(u, c)] = p as u16;
    seens[8 * p..8 * p + 8].copy_from_slice(&s.counts);
}

// The two tables, 16 KB.
#[derive(Drop)]
pub struct Tables {
    pub places: [u16; PLACES],
    pub seens: [u16; SEENS],
}

impl Tables {
    // Tables of no record, all zero.
    pub fn fresh() -> Tables
        ensures { result ≡ tables (replicate PLACES 0) (replicate SEENS 0) }
    {
        Tables {
            places: [0; PLACES],
            seens: [0; SEENS],
        }
    }

    // The tables have the lengths of their types.
    pub fn sized(&self)
        ensures { (length self.now.places ≡ PLACES) × (length self.now.seens ≡ SEENS) }
    {
        let _places = self.places.len();
        let _seens = self.seens.len();
    }

    // The position of a record, by these tables.
    pub fn position(&self, u: usize, c: u16) -> usize
        requires { (u < 8) × (1 ≤ c) × (c ≤ 512) }
        ensures { result ≡ position_of self.now.places u c }
    {
        position(&self.places, u, c)
    }

    // The quick test, by these tables.
    pub fn all_covered(&self, base: Vector, s: Vector) -> bool
        requires { Placed base.counts s.counts self.now.places }
        ensures { result ≡ closed_by base.counts self.now.places self.now.seens s.counts }
    {
        all_covered(base, &self.places, &self.seens, s)
    }

    // Closure, by these tables.
    pub fn is_closed(&self, base: Vector, s: Vector) -> bool
        requires { Placed base.counts s.counts self.now.places }
        ensures { result ≡ closed_by base.counts self.now.places self.now.seens s.counts }
    {
        is_closed(base, &self.places, &self.seens, s)
    }

    // A record is noted in these tables.
    pub fn note(&mut self, u: usize, c: u16, p: usize, s: Vector)
        requires { (u < 8) × (1 ≤ c) × (c ≤ 512) × (p < 518) }
        ensures { (self.new.places ≡ set self.old.places (slot_of u c) p) × (self.new.seens ≡ put_at self.old.seens (8 * p) s.counts) }
    {
        note(u, c, p, s, &mut self.places, &mut self.seens);
    }
}
