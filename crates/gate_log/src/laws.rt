//! Laws of images, over the definitions alone. Each law is a contract: its function does nothing.

ghost use Rattle.std.specs.Prelude.{◌≡◌, ℕ, List};
ghost use Rattle.gate_log.specs.Records.{Stands, IsRefused};

/// An image stands for one list and no other.
pub fn an_image_stands_for_one_list()
    ensures { (image : List ℕ) (ps qs : List (List ℕ))
        → Stands image ps → Stands image qs → ps ≡ qs }
{}

/// A refused image stands for no list, and is refused at one place and no other.
pub fn a_refused_image_stands_for_no_list()
    ensures none { (image : List ℕ) (at : ℕ) (ps : List (List ℕ))
        → IsRefused image at → Stands image ps → ⊥ }
    ensures one_place { (image : List ℕ) (m n : ℕ)
        → IsRefused image m → IsRefused image n → m ≡ n }
{}
