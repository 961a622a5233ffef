//! Laws of the definitions that this crate's contracts cite. Each call does nothing: its contract is the law.
ghost use Rattle.std.specs.Prelude.{◌≡◌, ◌++◌, ◌∷◌, ℕ, List, Option, true, false};
ghost use Rattle.std.specs.List.{filter, list_all};
ghost use Rattle.b2_dec.specs.Number.{Number};
ghost use Rattle.b2_flow.specs.declared.frame.Frame.{Frame};
ghost use Rattle.b2_flow.specs.declared.frame.Frame.TheVariants.{For, Call};
ghost use Rattle.b2_flow.specs.declared.frame.Place.{Place};
ghost use Rattle.b2_flow.specs.declared.frame.Var2.{Var2};
ghost use Rattle.b2_flow.specs.Frames.{is_call, is_loop, is_same_variable};
ghost use Rattle.b2_flow.specs.Stacks.{from_call, from_loop, has_call, has_loop};

/// Two variables are the same exactly where their letters and their digits are.
pub fn variables_are_told_apart()
    ensures equal { (v w : Var2) → is_same_variable v w ≡ true → v ≡ w }
    ensures same { (v : Var2) → is_same_variable v v ≡ true }
{}

/// A loop that was put on top is the one that its variable finds, and nothing is dropped.
pub fn new_loops_are_found()
    ensures found { (v : Var2) (limit step : Number) (body : Place) (below : List Frame) → has_loop v (For v limit step body ∷ below) ≡ true }
    ensures kept { (v : Var2) (limit step : Number) (body : Place) (below : List Frame) → from_loop v (For v limit step body ∷ below) ≡ For v limit step body ∷ below }
{}

/// A call hides the loops below it.
pub fn calls_hide_loops()
    ensures { (v : Var2) (back : Option Place) (entered : Option ℕ) (below : List Frame) → has_loop v (Call back entered ∷ below) ≡ false }
{}

/// The look-up of a loop drops no call.
pub fn loops_drop_no_call()
    ensures { (v : Var2) (frames : List Frame) → has_loop v frames ≡ true → filter is_call (from_loop v frames) ≡ filter is_call frames }
{}

/// A call is undone whatever loops stand above it.
pub fn calls_are_undone()
    ensures found { (loops below : List Frame) (back : Option Place) (entered : Option ℕ) → has_call (loops ++ Call back entered ∷ below) ≡ true }
    ensures undone { (loops below : List Frame) (back : Option Place) (entered : Option ℕ) → list_all is_loop loops ≡ true → from_call (loops ++ Call back entered ∷ below) ≡ Call back entered ∷ below }
{}
