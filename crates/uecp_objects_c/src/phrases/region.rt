//! The region whose names of programme types are meant. Source: IEC 62106, programme types.
ghost use Rattle.std.specs.Prelude.{◌≡◌};
ghost use Rattle.uecp_objects_c.specs.PhraseWords.{region_of};

use rds_text::Region;

/// North America, or Europe.
pub(crate) fn region_of(is_north_america: bool) -> Region
    ensures { result ≡ region_of is_north_america }
{
    if is_north_america {
        Region::NorthAmerica
    } else {
        Region::Europe
    }
}
