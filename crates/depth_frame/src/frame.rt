ghost use Rattle.std.specs.Prelude.{◌≡◌, ◌*◌, ◌<◌, length, vec_len};

use std::marker::Model;

/// A depth map: one raw sample a pixel, row by row from the top, each row from the left.
/// A raw sample is a depth in units that the camera's configuration gives, and 0 where the camera
/// measured none.
#[derive(Drop)]
pub struct DepthFrame {
    width: u32,
    height: u32,
    raw: Vec<u16>,
}

impl Model for DepthFrame {
    ghost use Rattle.std.specs.Prelude.{◌≡◌, ◌*◌, vec_len};
    ghost use Rattle.depth_frame.specs.DepthMaps.{DepthMap};

    ghost Value = { DepthMap };

    ghost view = { λ f. record { width = f.width; height = f.height; raw = f.raw.items } };

    ghost invariant = { λ f. vec_len f.raw ≡ f.width * f.height };
}

impl DepthFrame {
    ghost use Rattle.depth_frame.specs.DepthMaps.{sample_at};

    /// The depth map of `width` by `height` pixels with these samples, row by row.
    pub fn make(width: u32, height: u32, raw: Vec<u16>) -> DepthFrame
        requires { vec_len raw ≡ width * height }
        ensures { result ≡ record { width = width; height = height; raw = raw.items } }
    {
        DepthFrame { width, height, raw }
    }

    /// Pixels in a row.
    pub fn width(&self) -> u32
        ensures { result ≡ self.now.width }
    {
        self.width
    }

    /// Rows.
    pub fn height(&self) -> u32
        ensures { result ≡ self.now.height }
    {
        self.height
    }

    /// The samples, row by row.
    pub fn samples(&self) -> &[u16]
        ensures value { result.now ≡ self.now.raw }
        ensures count { length self.now.raw ≡ self.now.width * self.now.height }
    {
        self.raw.as_slice()
    }

    /// The sample of the pixel in column `u` and row `v`, both counted from 0.
    pub fn at(&self, u: u32, v: u32) -> u16
        requires column { u < self.now.width }
        requires row { v < self.now.height }
        ensures value { result ≡ sample_at self.now u v }
        ensures count { length self.now.raw ≡ self.now.width * self.now.height }
    {
        self.raw[u as usize + self.width as usize * v as usize]
    }
}
