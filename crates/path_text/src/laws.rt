//! Laws of the definitions, each proved as the contract of a function without a body.
ghost use Rattle.std.specs.Prelude.{◌≡◌, ◌∷◌, ◌++◌, List, ℕ, Ok};
ghost use Rattle.path_text.specs.Path.{IsNormalPath, base_of, folder_of, named_parts, parts_of, path_of, rooted};
ghost use Rattle.path_text.specs.Target.{IsTarget, target_of};

/// What is read is in normal form.
pub fn read_path_is_normal()
    ensures { (text path : List ℕ) → path_of text ≡ Ok path → IsNormalPath path }
{}

/// A path in normal form is read as it is.
pub fn normal_path_is_read_unchanged()
    ensures { (text : List ℕ) → IsNormalPath text → path_of text ≡ Ok text }
{}

/// A path is its base, joined to its folder.
pub fn folder_and_base_join()
    ensures { (text : List ℕ) → IsNormalPath text →
        path_of (folder_of text ++ 47 ∷ base_of text) ≡ Ok text }
{}

/// A target, joined to a path, gives the path of the parts of both.
pub fn target_joins_behind_path()
    ensures { (path target : List ℕ) → IsNormalPath path → IsTarget target →
        path_of (path ++ 47 ∷ target) ≡ Ok (rooted (named_parts path ++ parts_of target)) }
{}

/// What is read as a target is one, and it is the text.
pub fn read_target_is_target()
    ensures { (text target : List ℕ) → target_of text ≡ Ok target →
        (target ≡ text) × IsTarget text }
{}

/// A target is read as it is.
pub fn target_is_read_unchanged()
    ensures { (text : List ℕ) → IsTarget text → target_of text ≡ Ok text }
{}
