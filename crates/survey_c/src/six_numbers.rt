// A recorder as six numbers of the caller's.
ghost use Rattle.std.specs.Prelude.{◌≡◌};
ghost use Rattle.survey_c.specs.Recorder.{recorder_in, recorder_numbers};

use recorder::recorder::Recorder;

// The recorder that a caller's six numbers are.
pub fn recorder_in(numbers: &[u32; 6]) -> Recorder
    ensures { result ≡ recorder_in numbers.now }
{
    Recorder {
        number: numbers[0],
        used: (numbers[1] % 65536) as u16,
        first: (numbers[2] % 65536) as u16,
        from: numbers[3],
        left: numbers[4],
        survey: numbers[5],
    }
}

// The six numbers that a caller keeps of a recorder.
pub fn recorder_numbers(r: Recorder) -> [u32; 6]
    ensures { result ≡ recorder_numbers r }
{
    [
        r.number,
        r.used as u32,
        r.first as u32,
        r.from,
        r.left,
        r.survey,
    ]
}
