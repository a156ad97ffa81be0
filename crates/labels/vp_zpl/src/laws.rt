//! What the definitions of `specs/` say of every stream, whichever program reads it.
ghost use Rattle.std.specs.Prelude.{◌≡◌, ◌++◌, ◌∷◌, [], ℕ, List, IsTrue, true, false, length, map, ◌<◌, ◌≤◌, if◌then◌else◌, ◌==◌};
ghost use Rattle.std.specs.List.{AllByRecursion};
ghost use Rattle.vp_zpl.specs.declared.reading.Reading.{Reading};
ghost use Rattle.vp_zpl.specs.declared.reading.Reading.TheVariants.{Profile, Whole};
ghost use Rattle.vp_zpl.specs.declared.name.Kind.TheVariants as kinds;
ghost use Rattle.vp_zpl.specs.declared.name.Plain.TheVariants as plain;
ghost use Rattle.vp_zpl.specs.Spelling.{is_line_end, capital, known, undecided, decoded, parameters, behind_commas};
ghost use Rattle.vp_zpl.specs.Commands.{cut, wants_binary, kind_named, is_whole, is_b, head, count_of};
ghost use Rattle.vp_zpl.specs.Items.{Item, items, least_bytes, picture, at_rest};
ghost use Rattle.vp_zpl.specs.Laws.{rows, kind_in, narrowed, skipped_at_name, IsCommand, IsCut, cut_of};

/// What is given stays given.
pub fn only_more()
    ensures { (reading : Reading) (bytes more : List ℕ) →
        (added : List Item) × (items reading (bytes ++ more) ≡ items reading bytes ++ added) }
{}

/// Items are of no more bytes than were read: a command of three or more, each byte of data of one or more.
pub fn items_take_bytes()
    ensures { (reading : Reading) (bytes : List ℕ) → least_bytes (items reading bytes) ≤ length bytes }
{}

/// A stream is one list of commands with their data, and what is spelled behind
/// a command as one is read as one.
pub fn commands()
    ensures are { (reading : Reading) (bytes : List ℕ) → IsCut reading (cut reading bytes) }
    ensures read { (reading : Reading) (bytes command : List ℕ) → IsCommand reading command →
        wants_binary reading (cut reading bytes).open_one ≡ false →
        cut reading (bytes ++ command) ≡
        cut_of ((cut reading bytes).open_one ∷ (cut reading bytes).before) command }
{}

/// A name behind ^ is read in either case as its row of the table says, ^A with
/// any font; any other is skipped.
pub fn names()
    ensures { (reading : Reading) (a b : ℕ) → kind_named reading 0x5E a b ≡
        (if capital a == 0x41 then kinds.Plain plain.Font
        else kind_in (rows reading) (capital a) (capital b)) }
{}

/// The end of a line changes nothing, but in binary data.
pub fn line_ends()
    ensures { (reading : Reading) (bytes : List ℕ) (c : ℕ) → IsTrue (is_line_end c) →
        wants_binary reading (cut reading bytes).open_one ≡ false →
        (items reading (bytes ++ c ∷ []) ≡ items reading bytes)
        × (cut reading (bytes ++ c ∷ []) ≡ cut reading bytes) }
{}

/// A blank among parameters changes none, nor what stands behind ^GF's head.
pub fn blanks()
    ensures parameters { (args more : List ℕ) → parameters (args ++ 0x20 ∷ more) ≡ parameters (args ++ more) }
    ensures head { (args more : List ℕ) → is_whole args ≡ false →
        (head (args ++ 0x20 ∷ more) ≡ head (args ++ more))
        × (behind_commas 4 (args ++ 0x20 ∷ more) ≡ behind_commas 4 (args ++ more)) }
{}

/// Data that are known stay known, and at the end what is undecided is itself.
pub fn hex_data()
    ensures grows { (x : ℕ) (bytes : List ℕ) (c : ℕ) →
        (added : List ℕ) × (known x (bytes ++ c ∷ []) ≡ known x bytes ++ added) }
    ensures ends { (x : ℕ) (bytes : List ℕ) → decoded x bytes ≡ known x bytes ++ undecided x bytes }
{}

/// Behind ^GF's whole head a byte changes nothing in it, and while fewer than b are read, each is data.
pub fn binary_data()
    ensures head { (args : List ℕ) (c : ℕ) → is_whole args ≡ true → head (args ++ c ∷ []) ≡ head args }
    ensures data_bytes { (args : List ℕ) (c : ℕ) → is_whole args ≡ true → is_b (head args) ≡ true →
        length (behind_commas 4 args) < count_of (head args) →
        picture (args ++ c ∷ []) ≡ picture args ++ c ∷ [] }
{}

/// Whatever was read, more bytes bring the reader to rest.
pub fn can_be_completed()
    ensures { (reading : Reading) (bytes : List ℕ) → (end : List ℕ) × AllByRecursion (λ b. b < 256) end
        × (at_rest reading (bytes ++ end) ≡ true) }
{}

/// The whole language divides a stream as the profile does, and reads it alike but for the commands that it
/// adds, which the profile skips at their name.
pub fn the_profile_is_within()
    ensures cut { (bytes : List ℕ) → cut Profile bytes ≡ cut Whole bytes }
    ensures items { (bytes : List ℕ) → items Profile bytes ≡
        map narrowed (items Whole bytes) ++ skipped_at_name (cut Whole bytes).open_one }
{}
