// The 80-byte record: read, ranked and judged.
#![tactic(auto, using(crate::proofs::Ways::ways), unfolding(model::specs::Record::unit, model::specs::Record::num, model::specs::Record::seen_vector))]

ghost use Rattle.std.specs.Prelude.{◌≡◌, ◌<◌, length};
ghost use Rattle.model.specs.Record.{unit, num, seen_vector, well_formed};
ghost use Rattle.model.specs.Log.{rank};

use byte_slice::le16;
use vector::Vector;

// ---- the fields

// The unit that made the record.
pub fn unit_of(rec: &[u8]) -> u8
    requires { length rec.now ≡ 80 }
    ensures { result ≡ unit rec.now }
{
    rec[0]
}

// The record's number among those of its unit.
pub fn number_of(rec: &[u8]) -> u16
    requires { length rec.now ≡ 80 }
    ensures { result ≡ num rec.now }
{
    le16(rec, 2)
}

// The maker's vector just before.
pub fn seen_vector(rec: &[u8]) -> Vector
    requires { length rec.now ≡ 80 }
    ensures { result.counts ≡ seen_vector rec.now }
{
    vector::vector_at(rec, 4)
}

// ---- well formed

// Any bytes, judged: a slice of another length is no record.
pub fn well_formed(rec: &[u8]) -> bool
    ensures { result ≡ well_formed rec.now }
{
    rec.len() == 80
        && record_fields::head_fits(rec)
        && record_fields::object_fits(rec)
        && record_fields::folder_fits(rec)
        && record_fields::date_fits(rec)
        && record_fields::label_fits(rec)
        && record_fields::mark_fits(rec)
}

// ---- rank

// The sum of the eight seen counts, then the unit.
pub fn rank_of(rec: &[u8]) -> u32
    requires { length rec.now ≡ 80 }
    ensures { (result ≡ rank rec.now) × (result < 4194560) }
{
    let mut sum: u32 = 0;
    for u in 0..8 {
        sum += u32::from(le16(rec, 4 + 2 * u));
    }
    8 * sum + u32::from(rec[0])
}
