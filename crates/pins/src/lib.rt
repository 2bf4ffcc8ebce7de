#![tactic(auto)]
// What enters by the pins of one entity: whether a number of their sources is the same by each pin ("all pins must have the same c and the
// same bitmap. If their name indices differ, ..": document 02, No. 5). To the layer above: for every IDs and numbers whatever, what specs/ says.
ghost use Rattle.std.specs.Prelude.{◌≡◌, ◌<◌, ℕ, List, length, eqb, get_or, refl};
ghost use Rattle.pins.specs.Same.{numbers_at, one_number, all_same};
ghost use Rattle.pins.specs.SameLaws.{read_at};

use ground::index_of;

// A number of one byte or of two, by its value, and a table of such, by the values in it.
pub trait Number: Copy + Eq {
    ghost value: { Self → ℕ };

    ghost values: { List Self → List ℕ };

    // What stands in a table has the value that stands there among its values.
    ghost looked: { (xs : List Self) (i : ℕ) (x : Self) → i < length xs → x ≡ get_or xs i x → value x ≡ get_or (values xs) i 0 };

    // Numbers are equal where their values are.
    ghost told: { (a b : Self) → Self.PartialEq.eq a b ≡ eqb (value a) (value b) };
}

impl Number for u8 {
    ghost value = { λ x. x };

    ghost values = { λ xs. xs };

    ghost looked = { read_at };

    ghost told = { λ a b. refl };
}

// Stays: four lines twice, for each type states its own ghost members; a macro for both is no shorter.
impl Number for u16 {
    ghost value = { λ x. x };

    ghost values = { λ xs. xs };

    ghost looked = { read_at };

    ghost told = { λ a b. refl };
}

// The number of an ID.
pub fn number_of<T: Number>(numbers: &[T; 256], id: u8) -> T
    ensures { T.value result ≡ get_or (T.values numbers.now) id 0 }
{
    numbers[index_of(id)]
}

// Whether these IDs have one number.
pub fn same<T: Number>(ids: &[u8], numbers: &[T; 256]) -> bool
    ensures { result ≡ all_same (numbers_at (T.values numbers.now) ids.now) }
{
    let Some((first, others)) = ids.split_first() else {
        return true;
    };
    others.iter().all(
        |id| -> bool
            ensures { result ≡ one_number (T.values numbers.entry.now) id.now first.entry.now }
        { number_of(numbers, *id) == number_of(numbers, *first) },
    )
}
