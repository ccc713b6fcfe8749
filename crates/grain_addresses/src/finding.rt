//! Which line gives the byte at an address.

ghost use Rattle.std.specs.Prelude.{◌≡◌, option_map, nat_le};
ghost use Rattle.grain_addresses.specs.Finding.{holds, found, IsTiled};

use crate::places::Place;

/// Whether the line gives the byte at the address.
fn holds(place: &Place, address: usize) -> bool
    ensures { result ≡ holds address place.now }
{
    place.address() <= address && address - place.address() < place.width()
}

/// The line that gives the byte at the address, among lines whose bytes follow one another.
pub fn find<'p, 'a>(places: &'p [Place<'a>], address: usize) -> Option<&'p Place<'a>>
    requires { IsTiled 0 places.now }
    ensures { option_map (λ p. p.now) result ≡ found address places.now }
{
    let after = places.partition_point(
        |place: &Place| -> bool
            ensures { result ≡ nat_le place.now.address address }
        { place.address() <= address },
    );
    if after == 0 {
        return None;
    }
    let place = &places[after - 1];
    if holds(place, address) {
        Some(place)
    } else {
        None
    }
}
