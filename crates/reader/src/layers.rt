// Reading the layer lines.
ghost use Rattle.std.specs.Prelude.{◌≡◌, ◌<◌, ◌≤◌, ◌^◌};
ghost use Rattle.bits.specs.Bits.{bits_of};
ghost use Rattle.job.specs.Reading.{read_layer, read_many, via_rule};
ghost use Rattle.job.specs.Refusals.{read_of};
ghost use Rattle.reader.specs.Structs.{layer_read, layers_read, largest_in};

use job::groups::{Layer, layer_group};
use job::refusal::{Refusal, Refused};

// At least 1; 0 on the top layer, which no layer line comes after.
pub fn via_rule(after: usize, via: usize) -> bool
    ensures { result ≡ via_rule after via }
{
    if after == 0 { via == 0 } else { 1 <= via }
}

pub fn read_layer(s: &[u8], after: usize, at: usize) -> Result<Layer, Refused>
    requires { at < 2 ^ 32 }
    ensures { read_of result ≡ layer_read (read_layer (bits_of s.now) after at) }
{
    let Some(line) = layer_group(s, at) else {
        return Err(Refusal::Cut.at(at));
    };
    if line.wire < 1 {
        return Err(Refusal::Layer.at(at));
    }
    if !via_rule(after, line.via) {
        return Err(Refusal::Layer.at(at + 10));
    }
    if line.least < 1 {
        return Err(Refusal::Layer.at(at + 20));
    }
    Ok(line)
}

// Indexed by layer; 0 past the top layer.
pub fn read_layers(s: &[u8], count: usize) -> Result<[Layer; 8], Refused>
    requires { count ≤ 8 }
    ensures { read_of result ≡ layers_read (read_many 40 (read_layer (bits_of s.now)) count 80) }
{
    let mut layers = [Layer::default(); 8];
    for layer in 0..count {
        layers[layer] = read_layer(s, count - 1 - layer, 80 + 40 * layer)?;
    }
    Ok(layers)
}

// The largest M of all layers.
pub fn largest_least(layers: [Layer; 8]) -> usize
    ensures { result ≡ largest_in layers }
{
    layers.iter().map(|line| line.least).max().unwrap_or(0)
}
