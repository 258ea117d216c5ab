// What the whole promise says of the kinds that are built.
ghost use Rattle.attributes.specs.Colours.{middle_of as middle_colour};
ghost use Rattle.attributes.specs.Coordinates.{blend_of, inside};
ghost use Rattle.attributes.specs.Influences.{Subset, union};
ghost use Rattle.attributes.specs.Textures.{middle_of as middle_pair};
ghost use Rattle.promise.specs.Whole.{EveryChainKeepsAll};

use crate::every_chain_keeps_all;
use attributes::colour::Colour;
use attributes::coordinates::Coordinates;
use attributes::influence::Influence;
use attributes::texture::Texture;

// Coordinates stay in every box that held them all, and texture seams that met still meet.
pub fn coordinates_and_textures_kept()
    ensures { EveryChainKeepsAll inside blend_of middle_pair }
{
    every_chain_keeps_all::<Coordinates, Texture>();
}

// Influences stay inside every set that held them all, and colours that met still meet.
pub fn influences_and_colours_kept()
    ensures { EveryChainKeepsAll Subset union middle_colour }
{
    every_chain_keeps_all::<Influence, Colour>();
}
