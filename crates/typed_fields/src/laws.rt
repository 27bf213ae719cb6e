//! The laws of readings and spellings. Each stands as the contract of a function that does nothing.

ghost use Rattle.std.specs.Prelude.{◌≡◌, ℕ, ◌≤◌, List, Ok, pos};
ghost use Rattle.typed_fields.specs.Laws.{ReadsBack, AreApart, IsPlain, IsStable};
ghost use Rattle.typed_fields.specs.Number.{read_number, number_text, plain_number, IsNumber};
ghost use Rattle.typed_fields.specs.Flag.{read_flag, flag_text, IsFlag};
ghost use Rattle.typed_fields.specs.MonthYear.{read_month_year, month_year_text, IsMonthYear};
ghost use Rattle.typed_fields.specs.Day.{read_day, day_text, IsDay};
ghost use Rattle.typed_fields.specs.Stamp.{read_stamp, stamp_text, stamp_millis, stamp_at, IsStamp};
ghost use Rattle.typed_fields.specs.Stamp.{cut, cut_text, read_fine, width, IsFine};
ghost use Rattle.typed_fields.specs.Dec.{read_dec, dec_text, plain_dec, IsDec};
ghost use Rattle.typed_fields.specs.declared.stamp.Stamp.{Stamp};

/// What `write` appends is read as the same value.
pub fn what_is_written_reads_back()
    ensures dec { ReadsBack read_dec IsDec dec_text }
    ensures number { ReadsBack read_number IsNumber number_text }
    ensures flag { ReadsBack read_flag IsFlag flag_text }
    ensures day { ReadsBack read_day IsDay day_text }
    ensures month_year { ReadsBack read_month_year IsMonthYear month_year_text }
    ensures stamp { ReadsBack read_stamp IsStamp stamp_text }
    ensures fine { ReadsBack read_fine IsFine stamp_text }
{}

/// Two values never share their canonical spelling.
pub fn spellings_are_apart()
    ensures dec { AreApart IsDec dec_text }
    ensures number { AreApart IsNumber number_text }
    ensures flag { AreApart IsFlag flag_text }
    ensures day { AreApart IsDay day_text }
    ensures month_year { AreApart IsMonthYear month_year_text }
    ensures stamp { AreApart IsStamp stamp_text }
    ensures fine { AreApart IsFine stamp_text }
{}

/// The canonical spelling of what bytes are read as is those bytes without the needless ones. So
/// bytes with no needless one are the canonical spelling of their value, and no value has two
/// canonical spellings.
pub fn spellings_are_plain()
    ensures dec { IsPlain read_dec dec_text plain_dec }
    ensures number { IsPlain read_number number_text plain_number }
    ensures flag { IsPlain read_flag flag_text (λ bytes. bytes) }
    ensures day { IsPlain read_day day_text (λ bytes. bytes) }
    ensures month_year { IsPlain read_month_year month_year_text (λ bytes. bytes) }
    ensures stamp { IsPlain read_stamp stamp_text (λ bytes. bytes) }
    ensures fine { IsPlain read_fine stamp_text (λ bytes. bytes) }
{}

/// The canonical spelling of what bytes are read as is read as the same value.
pub fn spellings_are_stable()
    ensures dec { IsStable read_dec dec_text }
    ensures number { IsStable read_number number_text }
    ensures flag { IsStable read_flag flag_text }
    ensures day { IsStable read_day day_text }
    ensures month_year { IsStable read_month_year month_year_text }
    ensures stamp { IsStable read_stamp stamp_text }
    ensures fine { IsStable read_fine stamp_text }
{}

/// A moment is that of its stamp, and a stamp with milliseconds, which is no leap second, is that
/// of its moment.
pub fn moments_fit_stamps()
    ensures moment { (millis : ℕ) → stamp_millis (stamp_at millis) ≡ pos millis }
    ensures stamp { (s : Stamp) (millis : ℕ) → IsStamp s → width s.frac ≡ 3 → s.second ≤ 59
        → stamp_millis s ≡ pos millis → stamp_at millis ≡ s }
{}

/// What is read is read by the fine reading, too, and has nothing to be cut; and what the fine
/// reading reads is read once it is cut.
pub fn fine_stamps_are_cut()
    ensures read { (bytes : List ℕ) (s : Stamp) → read_stamp bytes ≡ Ok s → read_fine bytes ≡ Ok s }
    ensures whole { (bytes : List ℕ) (s : Stamp)
        → read_stamp bytes ≡ Ok s → cut_text bytes ≡ bytes }
    ensures cut { (bytes : List ℕ) (s : Stamp)
        → read_fine bytes ≡ Ok s → read_stamp (cut_text bytes) ≡ Ok (cut s) }
{}
