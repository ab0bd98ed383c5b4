// The prices of a job, and the price of entering a vertex in its parts.
ghost use Rattle.std.specs.Prelude.{◌≡◌, ◌<◌};
ghost use Rattle.rules.specs.Segments.{down};
ghost use Rattle.rules.specs.Joins.{places};
ghost use Rattle.rules.specs.Structs.{TechFits, tech_by, line_at, cost_of, kind_by};
ghost use Rattle.rules.specs.PriceLists.{extra_in, base_in, Priced};
ghost use Rattle.rules.specs.Facts.{tech_fits_prop, priced_prop};

use crate::track::Kind;
use job::grid::Grid;
use job::groups::Layer;
use job::penalty::Penalty;

// What a job says of its layers: the grid, the layer lines, 0 past the top layer, with the largest M, and the
// fields of the two penalties.
#[derive(Clone, Copy)]
pub struct Tech {
    pub grid: Grid,
    pub layers: [Layer; 8],
    pub largest: usize,
    pub guide: usize,
    pub short: usize,
}

// What the layers of a good job say, and what they make each byte of a vertex's flags cost.
#[derive(Drop)]
pub struct Prices {
    pub tech: Tech,
    pub extras: [usize; 8],
    pub ghost fits: { TechFits tech } by { tech_fits_prop tech },
    pub ghost priced: { Priced tech.guide tech.short extras } by { priced_prop tech.guide tech.short extras },
}

impl Prices {
    // How many places a search has: for each vertex two directions and every length up to the largest M.
    pub fn places(&self) -> usize
        ensures { result ≡ places (tech_by self.now.tech) }
    {
        self.tech.grid.vertices() * 2 * (self.tech.largest + 1)
    }

    pub fn line(&self, layer: usize) -> Layer
        requires { layer < 8 }
        ensures { result ≡ line_at self.now.tech.layers layer }
    {
        line_at(&self.tech.layers, layer)
    }

    pub fn base(&self, layer: usize, kind: Kind) -> usize
        requires { (layer < 8) × (kind_by kind ≡ down → 0 < layer) }
        ensures { result ≡ base_in self.now.tech.layers layer (kind_by kind) }
    {
        base_price(&self.tech.layers, layer, kind)
    }

    pub fn extra(&self, byte: u8) -> Penalty
        ensures { cost_of result ≡ extra_in self.now.extras byte }
    {
        extra_of(&self.extras, byte)
    }
}

// The layer line of a layer.
pub fn line_at(layers: &[Layer; 8], layer: usize) -> Layer
    requires { layer < 8 }
    ensures { result ≡ line_at layers.now layer }
{
    layers[layer]
}

// The wire price of the layer, or the price of the via, which the line of the lower of its two layers holds.
pub fn base_price(layers: &[Layer; 8], layer: usize, kind: Kind) -> usize
    requires { (layer < 8) × (kind_by kind ≡ down → 0 < layer) }
    ensures { result ≡ base_in layers.now layer (kind_by kind) }
{
    match kind {
        Kind::Along(_direction) => layers[layer].wire,
        Kind::Down => layers[layer - 1].via,
        Kind::Up => layers[layer].via,
    }
}

// What a vertex's byte of flags adds to that.
pub fn extra_of(extras: &[usize; 8], byte: u8) -> Penalty
    ensures { cost_of result ≡ extra_in extras.now byte }
{
    Penalty::from_field(extras[(byte % 8) as usize])
}
