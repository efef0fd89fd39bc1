// What every level means, shows and answers. A level is a consistency property: it says which options
// pass in a set.
ghost use Rattle.std.specs.Prelude.{◌≡◌, ℕ, ◌<◌, Bool, true, false, List, Decides};
ghost use Rattle.model.specs.Meaning.{Lawful, Meaning};
ghost use Rattle.model.specs.Sets.{Holds, In, Less, Plan, Sub};

pub trait Level {
    // The lines, options and rules that it stands over.
    ghost meaning: { Self → Meaning };

    // Which options pass in a set: of the level, the set, the line and the option.
    ghost passing: { Self → List ℕ → ℕ → ℕ → Type 0 };

    // Whether the first line touches the second: removing options of the first can make an option of
    // the second fail.
    ghost touching: { Self → ℕ → ℕ → Bool };

    // The number of lines.
    fn lines(&self) -> usize
        ensures { result ≡ (meaning self.now).lines };

    // The option count of a line; a missing line has none.
    fn count(&self, line: usize) -> usize
        ensures { result ≡ (meaning self.now).count line };

    // Whether line i touches line j.
    fn touches(&self, i: usize, j: usize) -> bool
        ensures { result ≡ touching self.now i j };

    // Whether an option passes in a set, whose missing words are 0.
    // Kept: a struct for a line with its option would only make callers write it out.
    fn passes(&self, set: &[u64], line: usize, option: usize) -> bool
        ensures { Decides result (passing self.now set.now line option) };

    // The facts of a rule source hold of its meaning.
    ghost lawful: { (x : Self) → Lawful (meaning x) };

    // Only an option of the set passes in it.
    ghost within: { (x : Self) (s : List ℕ) (i a : ℕ) → passing x s i a → In (meaning x) s i a };

    // What passes in a set passes in every larger set.
    ghost monotone: { (x : Self) (s t : List ℕ) (i a : ℕ) → Sub (meaning x) s t → passing x s i a → passing x t i a };

    // Every option of a plan passes in every set that holds the plan.
    ghost plans: { (x : Self) (s : List ℕ) (p : ℕ → ℕ) → Plan (meaning x) p → Holds (meaning x) s p → (i : ℕ) → i < (meaning x).lines → passing x s i (p i) };

    // What passes in a set still does, if it is still there, once options of a line that does not touch
    // its line are removed.
    ghost touch: { (x : Self) (s t : List ℕ) (i j a : ℕ) → Less (meaning x) i s t → passing x s j a → In (meaning x) t j a → touching x i j ≡ false → passing x t j a };

    // A missing line touches nothing and is not touched.
    ghost real: { (x : Self) (i j : ℕ) → touching x i j ≡ true → (i < (meaning x).lines) × (j < (meaning x).lines) };
}
