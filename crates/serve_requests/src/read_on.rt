//! Telling a READ in portions.
ghost use Rattle.std.specs.Prelude.{◌≡◌, true, false, None, IfOk, IfSome};
ghost use mathlib.Core.List.{IsPrefix};
ghost use Rattle.serve_requests.specs.Reading.{IsPortionTold, after, begins_reply, end_of_failed, ends_reply, is_last, is_unfinished};
ghost use Rattle.told.specs.Log.{SaysHeldSince};

use crate::answer::Answer;
use crate::perform::read_at;
use crate::reading::Reading;
use crate::reply_bytes::ReplyBytes;
use crate::requests::Requests;
use nbd::Errno;
use session_api::Device;
use told::Caller;

impl Requests {
    /// Tells the next portion of a READ: reads its bytes, and returns the answer with them, and the READ with what is left of it, if any is.
    /// An answer with an error ends the reply, as `break_off` does; the errors are those of `end` for a READ.
    pub fn read_on<D: Device>(
        &self,
        device: &D,
        me: &mut Caller<D::Name>,
        reading: Reading,
    ) -> (Answer, Option<Reading>)
        ensures of { result.0.of ≡ reading.request.of }
        ensures told { result.0.error ≡ None → IsPortionTold (SaysHeldSince me.old.log me.new.log) reading result.0.spelled }
        ensures next { result.0.error ≡ None → is_last reading ≡ false → result.1 ≡ Some (after reading) }
        ensures ends { is_last reading ≡ true → result.1 ≡ None }
        ensures failed { IfSome result.0.error (λ errno. (result.1 ≡ None) × (result.0.spelled ≡ end_of_failed reading errno)) }
        ensures broken { result.0.is_broken ≡ is_unfinished reading result.0.error }
        ensures order { result.0.error ≡ None → (result.0.begins ≡ begins_reply reading) × (result.0.ends ≡ ends_reply reading) }
        ensures order_of_failed { IfSome result.0.error (λ errno. (result.0.begins ≡ begins_reply reading) × (result.0.ends ≡ true)) }
        ensures unsynced { result.0.stored ≡ None }
        ensures goes_on { IsPrefix me.old.log me.new.log }
        ensures mine { me.new.own ≡ me.old.own }
    {
        match self.portion_told(device, me, &reading) {
            Ok(reply) => {
                let answer = Answer::portion(&reading, reply);
                if reading.is_last() {
                    (answer, None)
                } else {
                    (answer, Some(reading.after()))
                }
            }
            Err(errno) => (self.break_off(reading, errno), None),
        }
    }

    /// Returns the answer that ends the reply to a READ before all of it is told: a chunk with this error, or its header where nothing was
    /// told. Behind a header without an error nothing can tell of it, so the connection has to be closed (NBD protocol, "Simple reply
    /// message").
    pub fn break_off(&self, reading: Reading, errno: Errno) -> Answer
        ensures of { result.of ≡ reading.request.of }
        ensures error { result.error ≡ Some errno }
        ensures spelled { result.spelled ≡ end_of_failed reading errno }
        ensures broken { result.is_broken ≡ is_unfinished reading (Some errno) }
        ensures order { (result.begins ≡ begins_reply reading) × (result.ends ≡ true) }
        ensures unsynced { result.stored ≡ None }
    {
        let is_beyond_error = reading.is_beyond_error();
        let request = reading.into_request();
        if is_beyond_error {
            Answer::broken(self.alloc, request.of(), errno)
        } else {
            self.refuse(request, errno)
        }
    }

    // Reads the bytes of the next portion of a READ, and spells them.
    fn portion_told<D: Device>(
        &self,
        device: &D,
        me: &mut Caller<D::Name>,
        reading: &Reading,
    ) -> Result<ReplyBytes, Errno>
        ensures told { IfOk result (IsPortionTold (SaysHeldSince me.old.log me.new.log) reading.now) }
        ensures goes_on { IsPrefix me.old.log me.new.log }
        ensures mine { me.new.own ≡ me.old.own }
    {
        let found = read_at(self.alloc, device, me, reading.at(), reading.portion())?;
        ReplyBytes::of_portion(self.alloc, reading, found)
    }
}
