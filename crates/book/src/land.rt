// Kinds of land.
ghost use Rattle.book.specs.Lands.{LandRead};

use factors::Ground;

#[derive(Clone, Copy)]
pub enum Land {
    Forest,
    Cropland,
    Grassland,
    Wetlands,
    Settlements,
    Other,
}

impl TryFrom<char> for Land {
    type Error = Ground;

    ghost try_from_gives = { LandRead };

    fn try_from(letter: char) -> Result<Land, Ground> {
        match letter {
            'F' => Ok(Land::Forest),
            'C' => Ok(Land::Cropland),
            'G' => Ok(Land::Grassland),
            'W' => Ok(Land::Wetlands),
            'S' => Ok(Land::Settlements),
            'O' => Ok(Land::Other),
            _ => Err(Ground::UnknownLand),
        }
    }
}
