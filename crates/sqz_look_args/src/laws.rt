//! A law of the definitions: the contract of a function that does nothing.

ghost use Rattle.std.specs.Prelude.{◌≡◌, [], ◌∷◌, List, codes, false, true};
ghost use Rattle.clap.specs.Words.{Row};
ghost use Rattle.sqz_look_args.specs.Requests.{AsksCheck, given, has_flag};

/// Two command lines ask whether images are sound: one of two images with cleared weak slots, and
/// one of a single image.
pub fn worked_requests()
    ensures cleared { let words = codes "sqzlook" ∷ codes "check" ∷ codes "a" ∷ codes "b"
        ∷ codes "--clear-weak" ∷ [] in
        (rows : List Row) × AsksCheck words rows
        × (given (codes "IMAGE") rows ≡ codes "a" ∷ codes "b" ∷ [])
        × (has_flag (codes "clear-weak") rows ≡ true) }
    ensures kept { let words = codes "sqzlook" ∷ codes "check" ∷ codes "a" ∷ [] in
        (rows : List Row) × AsksCheck words rows
        × (given (codes "IMAGE") rows ≡ codes "a" ∷ [])
        × (has_flag (codes "clear-weak") rows ≡ false) }
{}
