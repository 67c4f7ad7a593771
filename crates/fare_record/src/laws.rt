ghost use Rattle.std.specs.Prelude.{◌≡◌, ℕ, List, length};
ghost use Rattle.fare_record.specs.Values.{RecordValue, StatementValue, AckValue, DayAckValue, HelloValue};
ghost use Rattle.fare_record.specs.Wide.{AreBytes, IsWideRecord, IsWideStatement, IsWideAck, IsWideDayAck, IsWideHello};
ghost use Rattle.fare_record.specs.Bodies.{record_bytes, record_in, routed_bytes, routed_in, statement_bytes, statement_in, ack_bytes, ack_in, day_ack_bytes, day_ack_in, hello_bytes, hello_in};

/// The numbers in a body are those that it spells, and a body of the right length spells the numbers in it:
/// so no two bodies spell the same numbers, and no two lists of numbers have the same body.
pub fn bodies_read_back()
    ensures record_read { (r : RecordValue) → IsWideRecord r → r.tap.route ≡ 0 → record_in (record_bytes r) ≡ r }
    ensures record_spelled { (bytes : List ℕ) → AreBytes 46 bytes → record_bytes (record_in bytes) ≡ bytes }
    ensures routed_read { (r : RecordValue) → IsWideRecord r → routed_in (routed_bytes r) ≡ r }
    ensures routed_spelled { (bytes : List ℕ) → AreBytes 48 bytes → routed_bytes (routed_in bytes) ≡ bytes }
    ensures statement_read { (s : StatementValue) → IsWideStatement s → statement_in (statement_bytes s) ≡ s }
    ensures statement_spelled { (bytes : List ℕ) → AreBytes 18 bytes → statement_bytes (statement_in bytes) ≡ bytes }
    ensures ack_read { (a : AckValue) → IsWideAck a → ack_in (ack_bytes a) ≡ a }
    ensures ack_spelled { (bytes : List ℕ) → AreBytes 12 bytes → ack_bytes (ack_in bytes) ≡ bytes }
    ensures day_ack_read { (a : DayAckValue) → IsWideDayAck a → day_ack_in (day_ack_bytes a) ≡ a }
    ensures day_ack_spelled { (bytes : List ℕ) → AreBytes 8 bytes → day_ack_bytes (day_ack_in bytes) ≡ bytes }
    ensures hello_read { (h : HelloValue) → IsWideHello h → hello_in (hello_bytes h) ≡ h }
    ensures hello_spelled { (bytes : List ℕ) → AreBytes 6 bytes → hello_bytes (hello_in bytes) ≡ bytes }
{}
