// The ratio of wide to narrow bars.
ghost use Rattle.std.specs.Prelude.{◌≡◌};
ghost use Rattle.barcodes.specs.Ratio.{ratio_of};

// Wide to narrow, one rounding, at least 2.0.
pub fn bar_ratio(wide: i32, narrow: i32) -> f64
    ensures { result ≡ ratio_of wide narrow }
{
    let q = (wide as f64) / (narrow as f64);
    if q < 2.0 { 2.0 } else { q }
}
