// Reading a list by place and by a test, for elements of any type. That a test may be called with any element is asked by
// each search: the language wants it of a call of a parameter.
ghost use Rattle.std.specs.Prelude.{◌≡◌, Bool, cond, position, find, count_by};
ghost use Rattle.std.specs.Fn.{FnReturnsAt};
ghost use Rattle.books.specs.Places.{Tells, at_place};

// The place of the first element that passes, counted from 0.
pub fn first_place<T, F: Fn(&T) -> bool>(items: &[T], test: F) -> Option<usize>
    requires { F.IsAlwaysCallable test }
    ensures { (p : T → Bool) → Tells F.Fn test p → result ≡ position p items.now }
{
    items.iter().position(test)
}

// The first element that passes.
pub fn find_first<T: Copy, F: Fn(&T) -> bool>(items: &[T], test: F) -> Option<T>
    requires { F.IsAlwaysCallable test }
    ensures { (p : T → Bool) → Tells F.Fn test p → result ≡ find p items.now }
{
    let place = first_place(items, test)?;
    items.get(place).copied()
}

// How many elements pass: a sum, since `filter` and `count` took twice the time.
pub fn count_where<T, F: Fn(&T) -> bool>(items: &[T], test: F) -> usize
    requires { F.IsAlwaysCallable test }
    ensures { (p : T → Bool) → Tells F.Fn test p → result ≡ count_by p items.now }
{
    items
        .iter()
        .map(
            |item|
                requires { F.IsAlwaysCallable test }
                ensures { (passes : Bool) × FnReturnsAt F.Fn test item.now passes × (result ≡ cond passes 1 0) }
            { usize::from(test(item)) },
        )
        .sum()
}

// What stands at a place, counted from 1: none outside.
pub fn at_place<T: Copy>(items: &[T], place: usize) -> Option<T>
    ensures { result ≡ at_place place items.now }
{
    // place 0 comes to the largest number, at which nothing stands
    items.get(place.wrapping_sub(1)).copied()
}
