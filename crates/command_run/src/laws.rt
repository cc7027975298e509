// What is so of all files and modules, as a call that does nothing.
ghost use Rattle.command_run.specs.LogLaws.{FindsLogs};
ghost use Rattle.command_run.specs.Laws.{ReadsModules};

/// Files within their limits are read whole, and valid modules as what they are.
pub fn reads_modules()
    ensures { ReadsModules }
{
    fri_outside::laws::keeps_files();
    wasm_decode::laws::module_is_spelled();
    wasm_validate::laws::exact_fault();
}

/// A file that is a log within its limit is found as the log that it is.
pub fn finds_logs()
    ensures { FindsLogs }
{
    call_log::laws::exact_logs();
    reads_modules();
}
