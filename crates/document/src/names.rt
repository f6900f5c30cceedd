// The names declared in one kind, in order.
ghost use Rattle.std.specs.Prelude.{◌≡◌, ◌+◌, ◌<◌, ◌≤◌, [], ◌∷◌, ◌++◌, length, take, IfSome, MatchOption, slice_index_or};
ghost use Rattle.program.specs.Names.{spelled};
ghost use Rattle.program.specs.Spellings.{Missing, NumberIn};
ghost use Rattle.document.specs.NameLists.{spellings};

use program::name::{Name, find};

// Kept: an array and a count and no `Vec`, since a document is fixed memory that is copied.
#[derive(Clone, Copy)]
pub struct Names {
    list: [Name; 64],
    count: usize,
    ghost few: { count ≤ 64 },
    ghost room: { length list ≡ 64 },
}

impl Names {
    pub fn new() -> Names
        ensures count { result.count ≡ 0 }
        ensures none { spellings result.count result.list ≡ [] }
    {
        Names {
            list: [Name::blank(); 64],
            count: 0,
        }
    }

    pub fn count(&self) -> usize
        ensures is { result ≡ self.now.count }
        ensures few { result ≤ 64 }
        ensures long { length (spellings self.now.count self.now.list) ≡ result }
    {
        self.count
    }

    // The names in order.
    pub fn listed(&self) -> &[Name]
        ensures count { length result.now ≡ self.now.count }
        ensures is { result.now ≡ take self.now.count self.now.list }
    {
        &self.list[..self.count]
    }

    // The number of the name that the field spells.
    pub fn find(&self, field: &[u8]) -> Option<usize>
        ensures within { IfSome result (λ i. i < self.now.count) }
        ensures is { MatchOption result (Missing (spellings self.now.count self.now.list) field.now) (λ i. NumberIn (spellings self.now.count self.now.list) field.now i) }
    {
        find(self.listed(), field)
    }

    // The name of a number below the count.
    pub fn at(&self, i: usize) -> Name
        ensures { i < self.now.count → spelled result ≡ slice_index_or (spellings self.now.count self.now.list) i [] }
    {
        self.listed().get(i).copied().unwrap_or(Name::blank())
    }

    // With one name more.
    pub fn with(self, name: Name) -> Names
        requires { self.count < 64 }
        ensures count { result.count ≡ self.count + 1 }
        ensures names { spellings result.count result.list ≡ spellings self.count self.list ++ spelled name ∷ [] }
    {
        let mut list = self.list;
        list[self.count] = name;
        Names {
            list,
            count: self.count + 1,
        }
    }
}
