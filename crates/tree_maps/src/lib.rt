// Keys to the rows of a table, in the register beside it: the chains of identities and labels, and the number of entries in a folder.
#![tactic(auto)]

ghost use Rattle.std.specs.Prelude.{◌≡◌, ◌+◌, ◌*◌, ◌%◌, ◌≤◌, ◌<◌, length, get_or};
ghost use Rattle.hash_chains.specs.Chains.{nodes_in, Chains};
ghost use Rattle.tree_maps.specs.Keys.{register_size, is_identity, link_of, named, hash_of, counted_up, counted_down, entered, relabelled, left, shifted};

// How many numbers the register has.
pub const REGISTER: usize = 9219;

// Where the chains of labels begin, behind those of identities, and the numbers of entries behind them.
pub const LABELS: usize = 4097;

const COUNTS: usize = 8194;

// The weights of the bytes of a label.
const WEIGHTS: [u32; 32] = [
    20251, 30011, 26489, 21157, 31247, 17681, 14551, 23609, 28711, 12289, 19427, 32009, 11083,
    25013, 16553, 29297, 13477, 22147, 27407, 18301, 10459, 31687, 15241, 24181, 20899, 29873,
    12697, 26041, 17093, 21613, 30529, 14071,
];

// The number k is an identity. The root is none.
pub fn is_identity(k: u32) -> bool
    ensures { result ≡ is_identity k }
{
    8 <= k && k < 524288
}

// The chain of an identity.
pub fn link(k: u32) -> usize
    ensures { (result ≡ link_of k) × (result < 1021) }
{
    (k % 1021) as usize
}

// An identity gets a role.
pub fn name(register: &mut [u16], k: u32, role: usize)
    requires { Chains 0 register.old × (nodes_in 0 register.old < 1536) × (role < 65536) }
    ensures { register.new ≡ named register.old k role }
{
    let h = link(k);
    hash_chains::push(register, 0, h, role);
}

// Of a byte what a capital and its small letter have in common, by a weight.
fn weigh(x: u8, w: u32) -> u32
    requires { w < 32768 }
    ensures { (result ≡ x % 32 * w) × (result ≤ 1015777) }
{
    u32::from(x % 32) * w
}

// The chain of a label in the folder f.
pub fn hash(f: u32, label: &[u8]) -> usize
    requires { length label.now ≡ 32 }
    ensures { (result ≡ hash_of f label.now) × (result < 1021) }
{
    let by = WEIGHTS;
    let mut sum: u32 = 0;
    for i in 0..32 {
        sum += weigh(label[i], by[i]);
    }
    ((sum + f % 1021 * 577) % 1021) as usize
}

// How many entries the folder at a place has.
pub fn children(register: &[u16], place: usize) -> usize
    requires { (place ≤ 1024) × (length register.now ≡ register_size) }
    ensures { (result ≡ get_or register.now (8194 + place) 0) × (result < 65536) }
{
    hash_chains::number_at(register, COUNTS + place)
}

// One entry more in the folder at a place.
pub fn count_up(register: &mut [u16], place: usize)
    requires { (place ≤ 1024) × (length register.old ≡ register_size) × (get_or register.old (8194 + place) 0 ≤ 1024) }
    ensures { register.new ≡ counted_up register.old place }
{
    let count = children(register, place);
    hash_chains::put(register, COUNTS + place, count + 1);
}

// One entry less in the folder at a place.
pub fn count_down(register: &mut [u16], place: usize)
    requires { (place ≤ 1024) × (length register.old ≡ register_size) × (1 ≤ get_or register.old (8194 + place) 0) }
    ensures { register.new ≡ counted_down register.old place }
{
    let count = children(register, place);
    hash_chains::put(register, COUNTS + place, count - 1);
}

// An entry is made in the folder f, which is at a place, in a row. The chain of its label is given.
pub fn enter_at(register: &mut [u16], place: usize, f: u32, label: &[u8], h: usize, row: usize)
    requires { Chains 4097 register.old × (length register.old ≡ register_size) × (place ≤ 1024) × (get_or register.old (8194 + place) 0 ≤ 1024) × (nodes_in 4097 register.old < 1536) × (h ≡ hash_of f label.now) × (h < 1021) × (row < 65536) }
    ensures { register.new ≡ entered register.old place f label.now row }
{
    count_up(register, place);
    hash_chains::push(register, LABELS, h, row);
}

// The same, its chain worked out.
pub fn enter(register: &mut [u16], place: usize, f: u32, label: &[u8], row: usize)
    requires { Chains 4097 register.old × (length register.old ≡ register_size) × (place ≤ 1024) × (get_or register.old (8194 + place) 0 ≤ 1024) × (nodes_in 4097 register.old < 1536) × (length label.now ≡ 32) × (row < 65536) }
    ensures { register.new ≡ entered register.old place f label.now row }
{
    let h = hash(f, label);
    enter_at(register, place, f, label, h, row);
}

// The entry in a row of the folder f gets another label.
pub fn relabel(register: &mut [u16], f: u32, old: &[u8], label: &[u8], row: usize)
    requires { Chains 4097 register.old × (nodes_in 4097 register.old < 1536) × (length old.now ≡ 32) × (length label.now ≡ 32) × (row < 65536) }
    ensures { register.new ≡ relabelled register.old f old.now label.now row }
{
    let before = hash(f, old);
    let after = hash(f, label);
    hash_chains::pop(register, LABELS, before, row);
    hash_chains::push(register, LABELS, after, row);
}

// The entry in a row leaves the folder f, which is at a place.
pub fn leave(register: &mut [u16], place: usize, f: u32, label: &[u8], row: usize)
    requires { Chains 4097 register.old × (length register.old ≡ register_size) × (place ≤ 1024) × (1 ≤ get_or register.old (8194 + place) 0) × (length label.now ≡ 32) }
    ensures { register.new ≡ left register.old place f label.now row }
{
    let h = hash(f, label);
    hash_chains::pop(register, LABELS, h, row);
    count_down(register, place);
}

// The entry in a row leaves the folder f, at the place from, and goes to the folder g, at the place to, under another label.
pub fn shift(
    register: &mut [u16],
    from: usize,
    f: u32,
    old: &[u8],
    to: usize,
    g: u32,
    label: &[u8],
    row: usize,
)
    requires { Chains 4097 register.old × (length register.old ≡ register_size) × (from ≤ 1024) × (1 ≤ get_or register.old (8194 + from) 0) × (to ≤ 1024) × (get_or register.old (8194 + to) 0 ≤ 1024) × (nodes_in 4097 register.old < 1536) × (length old.now ≡ 32) × (length label.now ≡ 32) × (row < 65536) }
    ensures { register.new ≡ shifted register.old from f old.now to g label.now row }
{
    leave(register, from, f, old, row);
    enter(register, to, g, label, row);
}
