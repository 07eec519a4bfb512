// Words added up.
ghost use Rattle.std.specs.Prelude.{◌≡◌, ◌≤◌, length};
ghost use Rattle.sheetmodel.specs.Layout.{greatest_size, word};
ghost use Rattle.sheetmodel.specs.Offices.{added_up};

pub fn sum_of(words: &[u32]) -> u64
    requires { length words.now ≤ greatest_size }
    ensures { result ≡ added_up (length words.now) (word words.now) }
{
    words.iter().map(|word| u64::from(*word)).sum()
}
