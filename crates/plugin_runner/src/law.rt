ghost use Rattle.std.specs.Prelude.{◌≡◌, ◌≢◌, ℕ, List, ◌++◌, Option, Some, None, Result, Err};
ghost use Rattle.host_model.specs.Spawner.{Child, Children};
ghost use Rattle.plugin_runner.specs.declared.fault.RunFault.{RunFault};
ghost use Rattle.plugin_runner.specs.declared.fault.RunFault.TheVariants as fault;
ghost use Rattle.plugin_runner.specs.declared.fault.Turn.{Turn};
ghost use Rattle.plugin_runner.specs.declared.runner.Runner.{Runner};
ghost use Rattle.plugin_runner.specs.Bytes.{bytes_of, IsPrefix};
ghost use Rattle.plugin_runner.specs.Collected.{HasTurned};
ghost use Rattle.plugin_runner.specs.Course.{Course, Event, IsRunnerOf, answer_after, course_after, new_course, text_of};
ghost use Rattle.plugin_runner.specs.Goes.{Hears};
ghost use Rattle.plugin_runner.specs.Run.{Ran, Run, whole_children};
ghost use Rattle.plugin_runner.specs.Runner.{lasting_answer};
ghost use Rattle.plugin_runner.specs.Text.{text};

/// The laws of a runner of a course, whatever the clock gives later. It does nothing.
pub fn runner_puts_what_it_heard()
    // What was put is a prefix of the text of what was heard, and all of it unless memory ran out.
    ensures prefix { (runner : Runner) (course : Course) (later : List ℕ) → IsRunnerOf runner course
        → IsPrefix course.told (bytes_of (text_of course later)) }
    ensures whole { (runner : Runner) (course : Course) (later : List ℕ) → IsRunnerOf runner course
        → lasting_answer runner ≢ Some (Err fault.Memory)
        → course.told ≡ bytes_of (text_of course later) }

    // It is at its end just where the text asks for that, and with that answer.
    ensures answer { (runner : Runner) (course : Course) (later : List ℕ) → IsRunnerOf runner course
        → lasting_answer runner ≢ Some (Err fault.Memory)
        → lasting_answer runner
        ≡ answer_after course.starts (text_of course later) course.children }
{}

/// The law of a collector over a spawner that tells its children: after its last turn its text is that of the
/// children which were started, each with all its bytes and its end. It does nothing.
pub fn run_hears_its_children_whole()
    ensures { (coming : List Child) (course : Course) (event : Option Event) (taken added : List ℕ)
        (answer : Option (Result Turn RunFault)) (before after : Children) (faults faults' : ℕ)
        → Run coming course before
        → Hears course answer event (Some before) (Some after) faults faults'
        → (later : List ℕ) (last : Result Turn RunFault)
        → answer_after course.starts (text_of (course_after event taken added course) later)
        (course_after event taken added course).children ≡ Some last
        → Ran coming (course_after event taken added course) later }
{}

/// The law of `take_collected` over a spawner that tells its children: where the last turn came to an end of the
/// text, this is the text of the children which were started, each with all its bytes and its end. It does
/// nothing.
pub fn collected_text_is_whole()
    ensures { (coming : List Child) (words : List (List ℕ)) (every starts last : ℕ)
        (begun : List (List (List ℕ))) (course : Course) (answer ending : Result Turn RunFault)
        (after : Option Children) (ahead ahead' : Option (List ℕ)) (later : List ℕ)
        → HasTurned answer (new_course words every starts last) course
        (Some (record { starts = begun; running = None; coming = coming })) after ahead ahead'
        → answer_after course.starts (text_of course later) course.children ≡ Some ending
        → Ran coming course later }
{}

/// The law of `take_collected` over a spawner that tells its children, in words of those that are to come. The text
/// of those that are started has each with all its bytes and its end. It does nothing.
pub fn collected_text_is_a_prefix()
    // Wherever the turns ended, what was put is a prefix of that text.
    ensures prefix { (coming : List Child) (words : List (List ℕ)) (every starts last : ℕ)
        (begun : List (List (List ℕ))) (course : Course) (answer : Result Turn RunFault)
        (after : Option Children) (ahead ahead' : Option (List ℕ)) (later : List ℕ)
        → HasTurned answer (new_course words every starts last) course
        (Some (record { starts = begun; running = None; coming = coming })) after ahead ahead'
        → IsPrefix course.told (bytes_of (text (record { every = every; last = last })
        (course.readings ++ later) (whole_children starts coming))) }

    // Where the last turn came to an end of the text, it is that one, with its answer.
    ensures whole { (coming : List Child) (words : List (List ℕ)) (every starts last : ℕ)
        (begun : List (List (List ℕ))) (course : Course) (answer ending : Result Turn RunFault)
        (after : Option Children) (ahead ahead' : Option (List ℕ)) (later : List ℕ)
        → HasTurned answer (new_course words every starts last) course
        (Some (record { starts = begun; running = None; coming = coming })) after ahead ahead'
        → answer_after course.starts (text_of course later) course.children ≡ Some ending
        → (text_of course later ≡ text (record { every = every; last = last })
        (course.readings ++ later) (whole_children starts coming))
        × (answer_after starts (text (record { every = every; last = last })
        (course.readings ++ later) (whole_children starts coming))
        (whole_children starts coming) ≡ Some ending) }
{}
