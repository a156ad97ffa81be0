//! What takes a joined image and puts its PNG file out.
ghost use Rattle.std.specs.Prelude.{◌≡◌, [], None, refl};
ghost use Rattle.vp_picture.specs.Kept.{ShowsAny, Drawn, Waits};
ghost use Rattle.vp_picture.specs.Pictures.{too_wide};
ghost use Rattle.std.proofs.Common.{sym, subst};
ghost use Rattle.std.proofs.KnownBytes.{Appends-nil};

use crate::drawing::Drawing;
use vp_join::{ImageWriter, JoinFault, Size};
use vp_png::WIDEST;
use vp_streams::Sink;

/// Takes a joined image, and puts its PNG file into an output as the image's rows come.
#[derive(Drop)]
pub struct PngWriter<K> {
    output: K,
    /// The image, once it is begun.
    image: Option<Drawing>,
}

impl<K> PngWriter<K> {
    /// Nothing is begun.
    pub fn new(output: K) -> Self
        ensures output { result.output ≡ output }
        ensures none { result.image ≡ None }
    {
        PngWriter {
            output,
            image: None,
        }
    }

    /// The output itself.
    pub fn into_output(self) -> K
        ensures { result ≡ self.output }
    {
        self.output
    }
}

impl<K: Sink> ImageWriter for PngWriter<K> {
    ghost has = { λ a text b.
        a.image ≡ None → Drawn (K.contents a.output) (K.contents b.output) b.image text };

    ghost awaits = { λ s more. Waits s.image more };

    ghost too_wide = { too_wide };

    ghost failures = { λ s. K.failed_writes s.output };

    fn is_too_wide(&self, width: u32) -> bool {
        width > WIDEST
    }

    fn begin(&mut self, size: Size) -> Result<(), JoinFault> {
        self.image = None;
        if size.height == 0 {
            return Ok(());
        }
        let mut image = Drawing::new(size.width, size.height);
        let result = image.flush(&mut self.output);
        self.image = Some(image);
        result
    }

    fn put(&mut self, rows: &[u8]) -> Result<(), JoinFault> {
        match &mut self.image {
            Some(image) => image.draw(rows, &mut self.output),
            None => Ok(()),
        }
    }

    ghost nothing = { λ a new. record {
      out = [];
      appended = Appends-nil (K.contents a.output);
      shows = subst (λ image. ShowsAny image [] []) (sym new) (refl, refl);
    } };
}
