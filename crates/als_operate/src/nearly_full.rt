ghost use Rattle.std.specs.Prelude.{◌≡◌, false};
ghost use Rattle.als_operate.specs.NearlyFull.{is_nearly_full, is_remarked};

/// When a log was last remarked on that has little room left: at most once an hour.
#[derive(Clone, Copy, Debug, PartialEq, Eq)]
pub struct NearlyFull {
    /// The hour of the last remark.
    told: Option<u64>,
}

impl NearlyFull {
    /// No remark was made.
    pub const NEVER: NearlyFull = NearlyFull { told: None };

    /// Whether a log that ends there is to be remarked on in this hour, counted from any moment on:
    /// where nine tenths of its device are used, and no remark was made in it. It notes that one is.
    pub fn is_due(&mut self, end: u64, capacity: u64, hour: u64) -> bool
        ensures due { result ≡ is_remarked self.old.told end capacity hour }
        // The same is not due again in this hour.
        ensures noted { is_remarked self.new.told end capacity hour ≡ false }
        ensures same { result ≡ false → self.new ≡ self.old }
    {
        if !is_nearly_full(end, capacity) || self.told == Some(hour) {
            return false;
        }
        self.told = Some(hour);
        true
    }
}

/// Whether a log that ends there uses nine tenths of its device or more.
fn is_nearly_full(end: u64, capacity: u64) -> bool
    ensures { result ≡ is_nearly_full end capacity }
{
    capacity - capacity / 10 <= end
}
