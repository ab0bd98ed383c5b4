// The tree and the unjoined pins of the net at hand: a byte for each vertex.
#![tactic(auto)]

ghost use Rattle.std.specs.Prelude.{◌≡◌, ◌<◌, take};
ghost use Rattle.job.specs.Lists.{All};
ghost use Rattle.tree.specs.Spots.{Pins, put_all, begun_spots, some_unjoined};

pub const ON_TREE: u8 = 1;

pub const UNJOINED: u8 = 2;

fn put_pins(spots: &mut [u8; 16384], pins: &[usize])
    requires { All (λ v. v < 16384) pins.now }
    ensures { spots.new ≡ put_all 2 pins.now spots.old }
{
    for &pin in pins {
        spots[pin] = UNJOINED;
    }
}

// The first pin is the tree, the others are unjoined. The bytes are lent bare.
pub fn begin_tree(spots: &mut [u8; 16384], pins: &[usize; 16], count: usize)
    requires { Pins pins.now count }
    ensures { spots.new ≡ begun_spots (take count pins.now) spots.old }
{
    if count == 0 {
        return;
    }
    put_pins(spots, &pins[..count]);
    spots[pins[0]] = ON_TREE;
}

pub fn some_unjoined(spots: &[u8; 16384], pins: &[usize; 16], count: usize) -> bool
    requires { Pins pins.now count }
    ensures { result ≡ some_unjoined spots.now (take count pins.now) }
{
    pins[..count].iter().any(|&pin| spots[pin] == UNJOINED)
}
