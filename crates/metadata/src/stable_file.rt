//! A file on stable storage: what a read returns, and what a crash may leave.
ghost use Rattle.std.specs.Prelude.{◌≡◌, ◌+◌, ◌<◌, ◌≤◌, List, ℕ, Bool, true, length, take, drop, IsTrue, IfOk, OnOk, OnErr};
ghost use Rattle.metadata.specs.Calls.{Only, Follows, Torn, Cut, Written, Resized, Elapses, Holds};

use crate::FileFault;

/// A file on stable storage, as the metadata sees it. `may_leave` is what a crash at this moment may leave: between two syncs any
/// write may be lost, torn or overtaken by a later one. A real file is such a one only as far as its system keeps its word;
/// `faithful` says whether each read so far gave what the file was told to hold.
pub trait StableFile: Drop {
    /// The bytes that a read returns.
    ghost seen: { Self → List ℕ };

    /// What a crash at this moment may leave.
    ghost may_leave: { Self → List ℕ → Type 0 };

    /// The moment, as a number that does not fall.
    ghost moment: { Self → ℕ };

    /// What a crash at some moment from that one on might have left, during a call or between two.
    ghost left_since: { Self → ℕ → List ℕ → Type 0 };

    /// How many calls have failed.
    ghost faults: { Self → ℕ };

    /// Whether each read so far gave what the file was told to hold. It falls at a read that gave anything else, which no code can
    /// tell, and never rises.
    ghost faithful: { Self → Bool } = { λ _. true };

    /// Returns how many bytes the file has.
    fn len(&mut self) -> Result<u64, FileFault>
        ensures len { IfOk result (λ n. IsTrue (faithful self.new) → n ≡ length (seen self.old)) }
        ensures seen { seen self.new ≡ seen self.old }
        ensures crash { (c : List ℕ) → may_leave self.new c → may_leave self.old c }
        ensures time { Elapses (moment self.old) (moment self.new) (left_since self.old) (left_since self.new) (may_leave self.new) }
        ensures falls { IsTrue (faithful self.new) → IsTrue (faithful self.old) }
        ensures uncounted { OnOk result (faults self.new ≡ faults self.old) }
        ensures counted { OnErr result (faults self.old < faults self.new) };

    /// Fills the buffer with the file's bytes from `at` on. A file that ends before that is a failure.
    fn read_at(&mut self, at: u64, buffer: &mut [u8]) -> Result<(), FileFault>
        ensures within { OnOk result (IsTrue (faithful self.new) → at + length buffer.old ≤ length (seen self.old)) }
        ensures read { OnOk result (IsTrue (faithful self.new) → buffer.new ≡ take (length buffer.old) (drop at (seen self.old))) }
        ensures seen { seen self.new ≡ seen self.old }
        ensures crash { (c : List ℕ) → may_leave self.new c → may_leave self.old c }
        ensures time { Elapses (moment self.old) (moment self.new) (left_since self.old) (left_since self.new) (may_leave self.new) }
        ensures falls { IsTrue (faithful self.new) → IsTrue (faithful self.old) }
        ensures uncounted { OnOk result (faults self.new ≡ faults self.old) }
        ensures counted { OnErr result (faults self.old < faults self.new) };

    /// Writes the bytes at `at`, over what is there and past the end. Until a sync a crash may leave any bytes in that range and
    /// past the old end.
    fn write_at(&mut self, at: u64, bytes: &[u8]) -> Result<(), FileFault>
        ensures written { OnOk result (Written at bytes.now (seen self.old) (seen self.new)) }
        ensures crash { Follows (Torn at (length bytes.now)) (may_leave self.old) (may_leave self.new) }
        ensures time { Elapses (moment self.old) (moment self.new) (left_since self.old) (left_since self.new) (may_leave self.new) }
        ensures still_faithful { faithful self.new ≡ faithful self.old }
        ensures uncounted { OnOk result (faults self.new ≡ faults self.old) }
        ensures counted { OnErr result (faults self.old < faults self.new) };

    /// Cuts the file to this many bytes, or fills it up with zeros. Until a sync a crash may leave some length between, and zeros
    /// past the old end.
    fn set_len(&mut self, len: u64) -> Result<(), FileFault>
        ensures resized { OnOk result (Resized len (seen self.old) (seen self.new)) }
        ensures crash { Follows (Cut len) (may_leave self.old) (may_leave self.new) }
        ensures time { Elapses (moment self.old) (moment self.new) (left_since self.old) (left_since self.new) (may_leave self.new) }
        ensures still_faithful { faithful self.new ≡ faithful self.old }
        ensures uncounted { OnOk result (faults self.new ≡ faults self.old) }
        ensures counted { OnErr result (faults self.old < faults self.new) };

    /// After it, a crash leaves what a read returns.
    fn sync(&mut self) -> Result<(), FileFault>
        ensures durable { OnOk result (Only (seen self.old) (may_leave self.new)) }
        ensures seen { seen self.new ≡ seen self.old }
        ensures crash { (c : List ℕ) → may_leave self.new c → may_leave self.old c }
        ensures time { Elapses (moment self.old) (moment self.new) (left_since self.old) (left_since self.new) (may_leave self.new) }
        ensures still_faithful { faithful self.new ≡ faithful self.old }
        ensures uncounted { OnOk result (faults self.new ≡ faults self.old) }
        ensures counted { OnErr result (faults self.old < faults self.new) };

    /// This moment is one of those since an earlier one.
    ghost counts_now: { (file : Self) (t : ℕ) (c : List ℕ) → t ≤ moment file → may_leave file c → left_since file t c };

    /// Since this moment there is no other.
    ghost only_now: { (file : Self) (c : List ℕ) → left_since file (moment file) c → may_leave file c };
}
