//! The first place of each number in a list, by the number.

ghost use Rattle.std.specs.Prelude.{◌≡◌, ◌<◌, ℕ, IfOk, Some};
ghost use Rattle.std.specs.List.{AllByRecursion};
ghost use Rattle.isle_declarations.specs.Numbered.{ArePlaces, place_in};

use std::alloc::{AllocError, Global};

/// The first place of each number, by the number.
#[derive(Drop)]
pub struct FirstPlaces {
    pub table: Vec<Option<usize>>,
}

/// Returns what a table has at a number.
pub fn place_in(table: &[Option<usize>], number: usize) -> Option<usize>
    ensures { result ≡ place_in table.now (Some number) }
{
    match table.get(number) {
        Some(place) => *place,
        None => None,
    }
}

/// Returns the first places of numbers, which are less than the count.
pub fn first_places(
    alloc: Global,
    count: usize,
    numbers: &[usize],
) -> Result<FirstPlaces, AllocError>
    requires { AllByRecursion (λ (n : ℕ). n < count) numbers.now }
    ensures { IfOk result (λ found. ArePlaces count numbers.now found) }
{
    let mut table: Vec<Option<usize>> = vec![in alloc; None; count]?;
    for (place, number) in numbers.iter().enumerate() {
        if place_in(table.as_slice(), *number).is_none() {
            table[*number] = Some(place);
        }
    }
    Ok(FirstPlaces { table })
}
